//! Contents as rows of tables have them: how they are made, and compared.

use riak_msgs::*;
use std::alloc::{AllocError, Global};

/// A field of bytes that may be absent.
type Label = Option<&'static [u8]>;

/// The bucket, the key and the tag of a link.
type LinkRow = (Label, Label, Label);

/// The key and the value of a pair.
type PairRow = (&'static [u8], Label);

/// A content with all its fields.
#[derive(Clone, Copy)]
pub(crate) struct ContentRow {
    pub(crate) value: &'static [u8],
    pub(crate) content_type: Label,
    pub(crate) charset: Label,
    pub(crate) content_encoding: Label,
    pub(crate) links: &'static [LinkRow],
    pub(crate) usermeta: &'static [PairRow],
    pub(crate) indexes: &'static [PairRow],
}

/// The value v alone. Others say what is other.
pub(crate) const V: ContentRow = ContentRow {
    value: b"v",
    content_type: None,
    charset: None,
    content_encoding: None,
    links: &[],
    usermeta: &[],
    indexes: &[],
};

/// A content with every field, and with fields of no bytes.
pub(crate) const FULL: ContentRow = ContentRow {
    value: b"v",
    content_type: Some(b"text/plain"),
    charset: Some(b"utf-8"),
    content_encoding: Some(b""),
    links: &[
        (Some(b"b"), Some(b"k"), Some(b"t")),
        (None, Some(b""), None),
    ],
    usermeta: &[(b"m", Some(b"1")), (b"", None)],
    indexes: &[(b"i_bin", Some(&[b'z'; 130]))],
};

fn pairs(alloc: Global, rows: &[PairRow]) -> Result<Sequence<Pair<'static>>, AllocError> {
    let mut pairs = Sequence::new(alloc);
    for row in rows {
        pairs.push(Pair {
            key: row.0,
            value: row.1,
        })?;
    }
    Ok(pairs)
}

fn links(alloc: Global, rows: &[LinkRow]) -> Result<Sequence<Link<'static>>, AllocError> {
    let mut links = Sequence::new(alloc);
    for row in rows {
        links.push(Link {
            bucket: row.0,
            key: row.1,
            tag: row.2,
        })?;
    }
    Ok(links)
}

fn details(alloc: Global, row: &ContentRow) -> Result<Details<'static>, AllocError> {
    Ok(Details {
        content_type: row.content_type,
        charset: row.charset,
        content_encoding: row.content_encoding,
        links: links(alloc, row.links)?,
        usermeta: pairs(alloc, row.usermeta)?,
        indexes: pairs(alloc, row.indexes)?,
    })
}

pub(crate) fn content(alloc: Global, row: &ContentRow) -> Result<Content, AllocError> {
    Content::with_details(alloc, row.value, &details(alloc, row)?)
}

fn are_pairs(pairs: &[Pair<'_>], rows: &[PairRow]) -> bool {
    for (pair, row) in pairs.iter().zip(rows) {
        if pair.key != row.0 || pair.value != row.1 {
            return false;
        }
    }
    pairs.len() == rows.len()
}

fn is_link(link: &Link<'_>, row: &LinkRow) -> bool {
    link.bucket == row.0 && link.key == row.1 && link.tag == row.2
}

fn are_links(links: &[Link<'_>], rows: &[LinkRow]) -> bool {
    for (link, row) in links.iter().zip(rows) {
        if !is_link(link, row) {
            return false;
        }
    }
    links.len() == rows.len()
}

fn are_details(details: &Details<'_>, row: &ContentRow) -> bool {
    details.content_type == row.content_type
        && details.charset == row.charset
        && details.content_encoding == row.content_encoding
        && are_links(details.links.as_slice(), row.links)
        && are_pairs(details.usermeta.as_slice(), row.usermeta)
        && are_pairs(details.indexes.as_slice(), row.indexes)
}

/// The details that were read are those of the row.
fn is_read(read: &Result<Details<'_>, MsgFault>, row: &ContentRow) -> bool {
    match read {
        Ok(details) => are_details(details, row),
        Err(_) => false,
    }
}

/// Where memory is refused for the details, they are read once more.
fn has_details(alloc: Global, content: &Content, row: &ContentRow) -> bool {
    is_read(&content.details(alloc), row) || is_read(&content.details(alloc), row)
}

/// So is it with those of a content that is shown.
fn shows_details(alloc: Global, content: &ShownContent, row: &ContentRow) -> bool {
    is_read(&content.details(alloc), row) || is_read(&content.details(alloc), row)
}

/// The content that is shown has the fields of the row, and no others.
pub(crate) fn is_shown(alloc: Global, content: &ShownContent, row: &ContentRow) -> bool {
    content.value() == row.value && shows_details(alloc, content, row)
}

/// The content has the fields of the row, and no others.
pub(crate) fn is_content(alloc: Global, content: &Content, row: &ContentRow) -> bool {
    content.value() == row.value && has_details(alloc, content, row)
}
