//! The image of a record: its fields and its trailer in 632 lent bytes.
#![tactic(auto)]

ghost use Rattle.std.specs.Prelude.{◌≡◌, not, ◌||◌, ◌+◌, ◌*◌, ◌≤◌, eqb, length};
ghost use Rattle.wire.specs.Bytes.{put};
ghost use Rattle.wire.specs.Trailer.{has_trailer};
ghost use Rattle.node.specs.SetUp.{fresh_record};
ghost use Rattle.image.specs.Image.{fields, numbers_at, image, record_in, image_size};
ghost use Rattle.image.specs.Stores.{with_held, with_matrix, with_vector};

use node::Node;

/// Bytes of an image.
pub const SIZE: usize = 632;

/// Bytes of an image's fields, behind which its trailer stands.
const FIELDS: usize = SIZE - 4;

// Where M and DELIV begin.
const MATRIX: usize = 3;

const VECTOR: usize = 579;

/// Where held stands.
pub const HELD: usize = 627;

/// The first two reasons for 20: whether bytes have another length than an image, or a bad trailer.
pub fn unsealed(s: &[u8]) -> bool
    ensures { result ≡ (not (eqb (length s.now) image_size) || not (has_trailer s.now)) }
{
    s.len() != SIZE || !wire::has_trailer(s)
}

// Reads the numbers of four bytes from `at` on.
#[tactic(auto, using(crate::proofs::Numbers::read_start, crate::proofs::Numbers::read_turn))]
fn read_numbers(s: &[u8], at: usize, a: &mut [u32])
    requires { at + 4 * length a.old ≤ length s.now }
    ensures { a.new ≡ numbers_at s.now at (length a.old) }
{
    for (k, v) in a.iter_mut().enumerate() {
        *v = wire::get_u32(s, at + 4 * k);
    }
}

/// Reads the record of the fields in front.
#[tactic(auto, using(crate::proofs::Reading::record_read), unfolding(crate::specs::Image::record_in))]
pub fn read(s: &[u8]) -> Node
    requires { length s.now ≡ image_size }
    ensures { result ≡ record_in s.now }
{
    let mut node = Node {
        me: s[0],
        n: s[1],
        cap: s[2],
        m: [0; 144],
        deliv: [0; 12],
        held: s[HELD],
    };
    read_numbers(s, MATRIX, &mut node.m);
    read_numbers(s, VECTOR, &mut node.deliv);
    node
}

// Writes the numbers, four bytes each, from `at` on.
#[tactic(auto, using(crate::proofs::Numbers::writing))]
fn write_numbers(s: &mut [u8], at: usize, a: &[u32])
    requires { at + 4 * length a.now ≤ length s.old }
    ensures { s.new ≡ put s.old at (fields a.now) }
{
    for (k, v) in a.iter().enumerate() {
        wire::put_u32(s, at + 4 * k, *v);
    }
}

/// What set-up leaves: the image of a fresh record.
pub fn store_fresh(s: &mut [u8], me: u8, n: u8, cap: u8)
    requires { length s.old ≡ image_size }
    ensures { s.new ≡ image (fresh_record me n cap) }
{
    s.fill(0);
    s[0] = me;
    s[1] = n;
    s[2] = cap;
    wire::write_trailer(s, 0, FIELDS);
}

/// What a send leaves: another matrix.
pub fn store_matrix(s: &mut [u8], m: &[u32; 144])
    requires { length s.old ≡ image_size }
    ensures { s.new ≡ image (with_matrix m.now (record_in s.old)) }
{
    write_numbers(s, MATRIX, m);
    wire::write_trailer(s, 0, FIELDS);
}

/// What an offer leaves: another number of held frames.
pub fn store_held(s: &mut [u8], held: u8)
    requires { length s.old ≡ image_size }
    ensures { s.new ≡ image (with_held held (record_in s.old)) }
{
    s[HELD] = held;
    wire::write_trailer(s, 0, FIELDS);
}

/// What a delivery leaves: the node's matrix, vector and number of held frames.
pub fn store_delivery(s: &mut [u8], node: &Node)
    requires { length s.old ≡ image_size }
    ensures { s.new ≡ image (with_held node.now.held (with_vector node.now.deliv (with_matrix node.now.m (record_in s.old)))) }
{
    write_numbers(s, MATRIX, &node.m);
    write_numbers(s, VECTOR, &node.deliv);
    s[HELD] = node.held;
    wire::write_trailer(s, 0, FIELDS);
}
