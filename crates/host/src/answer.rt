//! The eleven bytes of an answer.
ghost use Rattle.std.specs.Prelude.{◌≡◌, ◌≤◌, ◌<◌, length};
ghost use Rattle.wire.specs.Bytes.{put};
ghost use Rattle.node.specs.Told.{delivered_told};
ghost use Rattle.host.specs.Exports.{answer_bytes, answer_size, delivery_bytes};

use node::Delivered;

/// What an answer says; all zero is an answer that says nothing.
#[derive(Clone, Copy, Default)]
pub struct Answer {
    pub kind: u8,
    pub from: u8,
    pub number: u32,
    pub tried: u8,
    pub body: u8,
    pub extras: u8,
    pub bytes: u16,
}

impl Answer {
    /// A lent answer has at least so many bytes.
    pub const SIZE: usize = 11;

    /// The answer of a delivery.
    pub(crate) fn delivery(d: Delivered) -> Answer
        requires { (d.tried < 256) × (d.body < 256) × (d.extras < 256) × (d.bytes < 65536) }
        ensures { answer_bytes result.kind result.from result.number result.tried result.body result.extras result.bytes ≡ delivery_bytes (delivered_told d) }
    {
        Answer {
            kind: d.kind.byte(),
            from: d.from,
            number: d.number,
            tried: d.tried as u8,
            body: d.body as u8,
            extras: d.extras as u8,
            bytes: d.bytes as u16,
        }
    }

    /// Writes it to the front of the lent bytes; those behind stay.
    #[tactic(auto, using(crate::proofs::Written::writing))]
    pub(crate) fn write(self, s: &mut [u8])
        requires { answer_size ≤ length s.old }
        ensures { s.new ≡ put s.old 0 (answer_bytes self.kind self.from self.number self.tried self.body self.extras self.bytes) }
    {
        s[0] = self.kind;
        s[1] = self.from;
        wire::put_u32(s, 2, self.number);
        s[6] = self.tried;
        s[7] = self.body;
        s[8] = self.extras;
        wire::put_u16(s, 9, self.bytes);
    }
}
