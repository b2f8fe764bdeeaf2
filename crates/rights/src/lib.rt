//! Who may say what: the topic of a body, the group of a topic, and whether a class of nodes lacks the right to send a body, by a table of rights.
#![tactic(auto)]

ghost use Rattle.std.specs.Prelude.{◌≡◌};
ghost use Rattle.rights.specs.Topics.{topic, group};
ghost use Rattle.rights.specs.Rights.{place, lacks_right};
ghost use Rattle.rights.specs.Ours.{ours};

/// The topic of an empty body.
pub const EMPTY_TOPIC: u8 = 128;

// Kept: the C interface takes a class as any number, and one above these is refused.
/// The classes of nodes.
pub const MOVER: usize = 0;

pub const CAMERA: usize = 1;

pub const ARCHIVE: usize = 2;

pub const PANEL: usize = 3;

/// Groups of topics: so many bytes of a table belong to each class.
pub const GROUPS: usize = 4;

/// Bytes of a table of rights: class by class, four groups each, 1 for may and 0 for may not.
pub const TABLE_SIZE: usize = 16;

/// Our table: movers, cameras, archives, panels; of each motion, exposure, filing, notes.
pub const OURS: [u8; TABLE_SIZE] = [1, 0, 0, 1, 0, 1, 0, 1, 0, 0, 1, 1, 0, 0, 0, 1];

/// The constant is the table that the definitions name.
#[tactic(auto, unfolding(crate::specs::Ours::ours))]
pub fn ours() -> [u8; TABLE_SIZE]
    ensures { result ≡ ours }
{
    OURS
}

/// The topic of a body: its first byte.
#[tactic(auto, using(crate::proofs::Groups::topic_first))]
pub fn topic(body: &[u8]) -> u8
    ensures { result ≡ topic body.now }
{
    body.first().copied().unwrap_or(EMPTY_TOPIC)
}

/// The place of a topic's group among the four of a class: motion, exposure, filing, notes.
#[tactic(auto, using(crate::proofs::Groups::in_motion, crate::proofs::Groups::in_exposure, crate::proofs::Groups::in_filing, crate::proofs::Groups::in_notes))]
pub fn group(topic: u8) -> usize
    ensures { result ≡ place (group topic) }
{
    match topic {
        0..=31 => 0,
        32..=95 => 1,
        96..=127 => 2,
        128..=255 => 3,
    }
}

// Kept: C hands any number for a class, and the place in the table is only computed for one that is at most 3.
/// Whether a class is above 3, or lacks by this table the right to the topic of the body; a shorter table gives no right past its end.
pub fn lacks_right(table: &[u8], class: usize, body: &[u8]) -> bool
    ensures { result ≡ lacks_right table.now class body.now }
{
    if class > PANEL {
        return true;
    }
    let at = GROUPS * class + group(topic(body));
    table.get(at).copied() != Some(1)
}
