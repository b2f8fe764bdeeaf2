//! The input of a test load: one line with the number of nodes, the seed and the number of draws, and which requests are refused.
#![tactic(auto)]

ghost use Rattle.std.specs.Prelude.{◌≡◌};
ghost use Rattle.text.specs.Pieces.{split};
ghost use Rattle.request.specs.Request.{of_numbers, of_fields, request};
ghost use Rattle.request.specs.Refusal18.{out_of_range, wrong};

/// What an input asks for; the numbers are as they stand in the line, and may be out of range.
#[derive(Clone, Copy, Debug, PartialEq, Eq)]
pub struct Load {
    pub n: usize,
    pub seed: u64,
    pub draws: usize,
}

impl Load {
    // Whether one of the three numbers is out of its range.
    #[tactic(auto, unfolding(crate::specs::Refusal18::out_of_range, crate::specs::Refusal18::wrong_n, crate::specs::Refusal18::wrong_seed, crate::specs::Refusal18::wrong_draws))]
    fn is_out_of_range(self) -> bool
        ensures { result ≡ out_of_range self.n self.seed self.draws }
    {
        !matches!(
            self,
            Load {
                n: 2..=4,
                seed: 1..=4_294_967_295,
                draws: 1..=400
            }
        )
    }
}

// The request of three fields.
#[tactic(auto, unfolding(crate::specs::Request::of_numbers))]
fn of_numbers(n: Option<u64>, seed: Option<u64>, draws: Option<u64>) -> Option<Load>
    ensures { result ≡ of_numbers n seed draws }
{
    Some(Load {
        n: n? as usize,
        seed: seed?,
        draws: draws? as usize,
    })
}

// The request of a line, which has its line feed no more.
#[tactic(auto, using(crate::proofs::Parts::fields))]
fn parse_line(line: &[u8]) -> Option<Load>
    ensures { result ≡ of_fields (split 32 line.now) }
{
    let (n, fields) = text::split_once(line, b' ')?;
    let (seed, draws) = text::split_once(fields, b' ')?;
    of_numbers(
        text::value(n, 10),
        text::value(seed, 10),
        text::value(draws, 10),
    )
}

/// The request of an input: one line, ended by its line feed, and nothing behind it.
#[tactic(auto, using(crate::proofs::Parts::lines))]
pub fn parse(input: &[u8]) -> Option<Load>
    ensures { result ≡ request input.now }
{
    let (line, rest) = text::split_once(input, b'\n')?;
    if rest.is_empty() {
        parse_line(line)
    } else {
        None
    }
}

/// Whether a request is refused, with 18.
#[tactic(auto, unfolding(crate::specs::Refusal18::wrong))]
pub fn is_wrong(r: Option<Load>) -> bool
    ensures { result ≡ wrong r }
{
    match r {
        Some(load) => load.is_out_of_range(),
        None => true,
    }
}
