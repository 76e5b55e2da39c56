//! What is known of partitions' diversions says of their keys.

ghost use Rattle.std.specs.Prelude.{List};
ghost use Rattle.handoff.specs.Partitions.{HandoffView};
ghost use Rattle.handoff_tracks.specs.Joining.{AllJoined};
ghost use Rattle.handoff_tracks.specs.Tracks.{HaveTracks};
ghost use Rattle.handoff_tracks.specs.declared.track.HandoffTrack.{HandoffTrack};

/// Of each partition whose diversions have all returned, by calls all of which are known
/// ([`HandoffTrack::AtPrimary`](crate::HandoffTrack::AtPrimary)), each key's siblings at the primary are
/// the joint ones behind the last return: the writes and tombstones of any side that no command of any
/// side saw. It asks only that each context which a command of the key carried had been shown for it.
pub fn known_hand_offs_join()
    ensures { (handoff : HandoffView) (tracks : List HandoffTrack) → HaveTracks handoff tracks
        → AllJoined handoff tracks }
{}
