//! Why a call says no: document 01's refusals, each with its number. Nothing here knows of nodes or bytes.
#![tactic(auto)]

ghost use Rattle.std.specs.Prelude.{◌≡◌};
ghost use Rattle.refusal.specs.Numbers.{number};

use std::error::Error;
use std::fmt;

/// Why a call says no; where several checks are met, it is the first.
#[derive(Clone, Copy, Debug, PartialEq, Eq)]
pub enum Refusal {
    /// n, me or cap is out of range.
    OutOfRange = 1,
    /// The record breaks a record rule.
    BrokenRecord = 2,
    /// A lent buffer is too short, or the queue has another length; a trail's file has no room.
    TooShort = 3,
    /// The queue is not laid out as it should be, a held frame is refused, or two held frames agree.
    WrongQueue = 4,
    /// A count has come to its limit.
    CountedOut = 5,
    /// The destination is the node itself, or no node.
    Destination = 6,
    /// The body is too long.
    LongBody = 7,
    /// The frame's length or its trailer is wrong.
    DamagedFrame = 8,
    /// The frame's kind is unknown, or its byte 7 is not zero.
    UnknownKind = 9,
    /// The frame's n, cap, from or to does not fit.
    OtherPlant = 10,
    /// The frame's entries or its body break a rule.
    BadParts = 11,
    /// The frame is for another node.
    OtherNode = 12,
    /// The frame tells of more frames from this node than it has issued.
    NotIssued = 13,
    /// The frame was delivered before.
    Delivered = 14,
    /// The frame is held already.
    Held = 15,
    /// The queue has no place for this frame now.
    QueueFull = 16,
    /// A line of the yard that it cannot follow.
    Line = 17,
    /// A load's line that it cannot follow.
    Load = 18,
    /// The trail's window, or the frame there or to be written.
    Trail = 19,
    /// The image has another length, a bad trailer, or a record that breaks a rule.
    Image = 20,
    /// The class has no right to the body's topic.
    NoRight = 21,
}

impl Refusal {
    /// Its number.
    pub fn number(self) -> u8
        ensures { result ≡ number self }
    {
        self as u8
    }
}

impl fmt::Display for Refusal {
    fn fmt<W: fmt::Write>(&self, f: &mut fmt::Formatter<W>) -> fmt::Result {
        f.write_str(match self {
            Refusal::OutOfRange => "n, me or cap is out of range",
            Refusal::BrokenRecord => "the record breaks a rule",
            Refusal::TooShort => "a lent buffer is too short, or has no room",
            Refusal::WrongQueue => "the queue does not belong to the record",
            Refusal::CountedOut => "a count has come to its limit",
            Refusal::Destination => "the destination is the node itself, or no node",
            Refusal::LongBody => "the body is too long",
            Refusal::DamagedFrame => "the frame's length or trailer is wrong",
            Refusal::UnknownKind => "the frame's kind is unknown",
            Refusal::OtherPlant => "the frame's n, cap, from or to does not fit",
            Refusal::BadParts => "the frame's entries or body break a rule",
            Refusal::OtherNode => "the frame is for another node",
            Refusal::NotIssued => "the frame tells of frames that were not issued",
            Refusal::Delivered => "the frame was delivered before",
            Refusal::Held => "the frame is held already",
            Refusal::QueueFull => "the queue has no place for this frame now",
            Refusal::Line => "the line, its node or its issue is wrong, or too few issues are left",
            Refusal::Load => "the load's line is wrong",
            Refusal::Trail => "the trail's window or a frame of it is wrong",
            Refusal::Image => "the image is no sound record's",
            Refusal::NoRight => "the class has no right to the body's topic",
        })
    }
}

impl Error for Refusal {}
