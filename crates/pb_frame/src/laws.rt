//! What follows from the definitions alone.

ghost use Rattle.std.specs.Prelude.{ℕ, ◌≡◌, ◌++◌, ◌<◌, ◌^◌, List};
ghost use Rattle.std.specs.List.{flat_map, All};
ghost use Rattle.pb_frame.specs.declared.fault.FrameFault.{FrameFault};
ghost use Rattle.pb_frame.specs.Limits.{max_request_len};
ghost use Rattle.pb_frame.specs.Message.{CodedMessage, frame, FitsLimit, Splits, IsFaultyStream};
ghost use Rattle.pb_frame.specs.Stream.{Stream, opening};
ghost use Rattle.pb_frame.specs.Taking.{IsOut, IsRefused};
ghost use Rattle.pb_frame.specs.Run.{FramerEvent, Ran, fed_bytes, taken_messages};

use crate::limits::MAX_REQUEST_LEN;

/// Each stream of bytes splits into a list of messages and a rest.
pub fn every_stream()
    ensures { (limit : ℕ) → limit < 2 ^ 32 → (stream : List ℕ) → All (λ b. b < 2 ^ 8) stream
        → (messages : List CodedMessage) × (rest : List ℕ) × Splits limit stream messages rest }
{}

/// A stream splits into no other list of messages and no other rest, so it doesn't matter how it
/// was cut.
pub fn one_split()
    ensures { (limit : ℕ) → limit < 2 ^ 32
        → (stream : List ℕ) (these those : List CodedMessage) (x y : List ℕ)
        → Splits limit stream these x → Splits limit stream those y → (these ≡ those) × (x ≡ y) }
{}

/// Messages whose frames are at the front of a stream begin its list.
pub fn first_messages()
    ensures { (limit : ℕ) → limit < 2 ^ 32
        → (stream : List ℕ) (all some : List CodedMessage) (rest more : List ℕ)
        → Splits limit stream all rest
        → stream ≡ flat_map frame some ++ more → All (FitsLimit limit) some
        → (later : List CodedMessage) × (all ≡ some ++ later)
        × (more ≡ flat_map frame later ++ rest) }
{}

/// However feeds and takes follow one another, what was fed is the frames that were taken and what
/// is left, and the messages that were taken begin those of what was fed.
pub fn any_pieces()
    ensures bytes { (limit : ℕ) (events : List FramerEvent) (new : Stream)
        → Ran (opening limit) events new
        → (fed_bytes events ≡ flat_map frame (taken_messages events) ++ new.rest)
        × All (FitsLimit limit) (taken_messages events) }
    ensures begins { (limit : ℕ) → limit < 2 ^ 32
        → (events : List FramerEvent) (new : Stream) → Ran (opening limit) events new
        → (all : List CodedMessage) (rest : List ℕ) → Splits limit (fed_bytes events) all rest
        → (later : List CodedMessage) × (all ≡ taken_messages events ++ later) }
{}

/// Where `take` gives none, all messages of what was fed were taken, and what was fed isn't faulty.
pub fn none_left()
    ensures { (limit : ℕ) → limit < 2 ^ 32 → (events : List FramerEvent) (old new : Stream)
        → Ran (opening limit) events old → IsOut old new
        → Splits limit (fed_bytes events) (taken_messages events) new.rest
        × ((fault : FrameFault) → IsFaultyStream limit (fed_bytes events) fault → ⊥) }
{}

/// Where `take` returns a bad length, all messages of what was fed were taken, and it is faulty behind
/// them.
pub fn bad_length()
    ensures { (limit : ℕ) (events : List FramerEvent) (old new : Stream) (fault : FrameFault)
        → Ran (opening limit) events old → IsRefused old fault new
        → Splits limit (fed_bytes events) (taken_messages events) new.rest
        × IsFaultyStream limit (fed_bytes events) fault }
{}

/// The request limit that servers pass to their framers is the one of the definitions.
pub fn request_limit()
    ensures { MAX_REQUEST_LEN ≡ max_request_len }
{}
