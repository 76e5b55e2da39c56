//! The messages of Riak's Protocol Buffers client API: requests, replies, and their bytes.
//!
//! ```text
//! write_request(alloc, &Request::Get(GetAsk::plain(alloc, b"b", b"k")?))  09 0a 01 62 12 01 6b
//! read_request(alloc, 9, b"\x0a\x01b\x12\x01k")                           Request::Get of bucket b, key k
//! read_request(alloc, 9, b"\x0a\x01b")                                    MsgFault::MissingField
//! write_reply(alloc, &Reply::Error(Text::NotFound))                       00 0a 08 "notfound" 10 01
//! Content::of_value(alloc, b"v")?.value()                                 "v"
//! ```
//!
//! A message decodes to a request, or to a reply, as a function of its list of fields (`Decodes`,
//! `DecodesReply`): the last occurrence of a scalar, all of a repeated field in their order, the
//! content of a put merged over its occurrences; everything else is skipped. Where it decodes to
//! none, the result is the first fault that holds. The result is unique ([`messages_say_one`],
//! [`replies_say_one`]). Quorum and timeout fields are skipped.
//!
//! Each reply, and each request of a client, has one encoding (`reply_body`, `request_body`):
//! fields by rising number, every varint in its shortest form, a true as 1, and nothing for what is
//! absent or false. [`write_reply`] and [`write_request`] give it. [`Reply::body_len`] and
//! [`Reply::append_body`] give it in parts, for a frame that is made in one buffer.
//!
//! Most clients write requests in this one encoding, with lengths below 16,384. Such a get, put or
//! delete is read straight, field by field in their order, and its content is copied as it lies.
//! Any other body is scanned: one scan over the fields as they lie ([`pb_fields::scan`]), in which
//! each message has its step for one field, and then a copy of each kept field. A put's links and
//! pairs are scanned once more for each of their numbers of which the first scan met some, and are
//! encoded one after another, without a list of them. Writing counts the bytes first, takes one
//! buffer of that size, and writes them once. A content is encoded when it is made, whatever the
//! encoding that it came in, and kept so: a reply appends its bytes, and counts them by their
//! length. A link or pair is counted once for its own length and once for that of the content.
//! Reading and writing take time linear in the bytes. What is called for each field is marked
//! `inline(always)`, a hint to LLVM, since its results are wide.
//!
//! Contracts see [`Bytes`], [`BucketType`] and [`Sequence`] as lists and [`Content`] as a record,
//! so a request, a reply and all within them are plain data. A content's [`Details`], which most
//! have none of, are borrowed: from what a content is made of, or from its encoding. A content's
//! encoding is shared by all who have the content ([`Content::clone`]): a reply copies none of it
//! but into its frame. A message is written down once, as the fields that it encodes to a
//! [`pb_fields::Output`]. Keys are ordered by `key_cmp` ([`keys_are_ordered`]). What holds bytes is
//! copied by an inherent `clone`, which takes the allocator and may be refused.
//!
//! Sources: the documentation of Riak's Protocol Buffers client API, the messages of
//! `riak_kv.proto` and `riak.proto`, and the Protocol Buffers encoding.
//!
//! # Proved
//!
//! [`read_request`] and [`read_reply`] return what a message says, or the first fault that holds.
//! [`write_reply`] and [`write_request`] give the one encoding. **What was written is read again**:
//! every reply, and every request whose names have bytes. By `read_request`, `read_reply`,
//! `write_reply`, `write_request`, `Reply::body_len`, `Reply::append_body`, `Shown::of_content`,
//! `ShownContent::value`, `ShownContent::details`, `text_of`; laws `messages_say_one`,
//! `replies_say_one`, `requests_are_read_again`, `replies_are_read_again`, `keys_are_ordered`.
//!
//! # Open
//!
//! - That a clone of a content shares its bytes.
//! - That a content that is shown shares its bytes.
#![tactic(auto)]

mod bucket_type;
mod byte_order;
mod bytes;
mod content;
mod content_view;
mod context_bytes;
mod del;
mod details;
mod encode;
mod fault;
mod field_access;
mod get;
mod key;
mod key_view;
mod laws;
mod link;
mod pair;
mod pairs_and_links;
mod parts_encoder;
mod plain_fields;
mod plain_put;
mod put;
mod read_del;
mod read_get;
mod read_put;
mod reply;
mod reply_laws;
mod reply_view;
mod request;
mod request_encoding;
mod round_trips;
mod sequence;
mod shown;
mod shown_content;
mod text;

pub use bucket_type::{BucketType, DEFAULT_TYPE};
pub use bytes::Bytes;
pub use content::Content;
pub use context_bytes::ContextBytes;
pub use del::DelAsk;
pub use details::Details;
pub use fault::MsgFault;
pub use get::{GetAsk, GetReply};
pub use key::Key;
pub use laws::{keys_are_ordered, messages_say_one};
pub use link::Link;
pub use pair::Pair;
pub use pb_fields::{Message, Output, encode_message, encode_repeated, encoded_len};
pub use put::{PutAsk, PutReply};
pub use read_get::plain_get_names;
pub use reply::{Reply, write_reply};
pub use reply_laws::replies_say_one;
pub use reply_view::read_reply;
pub use request::{Request, read_request};
pub use request_encoding::write_request;
pub use round_trips::{replies_are_read_again, requests_are_read_again};
pub use sequence::Sequence;
pub use shown::{Shown, ShownSibling};
pub use shown_content::ShownContent;
pub use text::{Text, text_of};
