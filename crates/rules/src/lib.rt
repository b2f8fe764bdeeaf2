//! The record rules: whether n, me and cap are in range, whether matrix and vector keep the rules, and whether a count is at its limit.
//! Passes have no early exit, since a record is sound nearly always.
#![tactic(auto)]

ghost use Rattle.std.specs.Prelude.{◌≡◌, ℕ, Bool, ◌&&◌, ◌||◌, ◌+◌, ◌*◌, ◌≤◌, ◌<◌, eqb, leb, ltb};
ghost use Rattle.std.specs.List.{list_all};
ghost use Rattle.wire.specs.Limits.{max_count};
ghost use Rattle.matrix.specs.Array.{entry, vector};
ghost use Rattle.protocol.specs.Node.{Node, at_limit, each_below, some_below};
ghost use Rattle.rules.specs.Rules.{in_range, zero_diagonal, zero_column, within_limit, zero_from, broken_rules};

// Whether each count of the run passes the test; all are looked at.
fn each<F: Fn(u32) -> bool>(run: &[u32], test: F) -> bool
    requires { F.IsAlwaysCallable test }
    ensures { (p : ℕ → Bool) → ((v : ℕ) (b : Bool) → v < 4294967296 → F.post test v b → b ≡ p v) → result ≡ list_all p run.now }
{
    let mut ok = true;
    for v in run {
        ok &= test(*v);
    }
    ok
}

/// Whether n is 2 to 12, me is below n and cap is n to n * n.
#[tactic(auto, using(std::proofs::lemmas::Grind::common_steps), unfolding(crate::specs::Rules::in_range))]
pub fn in_range(me: usize, n: usize, cap: usize) -> bool
    ensures { result ≡ in_range me n cap }
{
    2 <= n && n <= wire::MAX_NODES && me < n && n <= cap && cap <= n * n
}

// Kept: `zero_diagonal` and `zero_column` differ in their stride; one function with the stride as a parameter would need its bounds in a clause and is no plainer.
// M[x,x] = 0.
#[tactic(auto, using(crate::proofs::Passes::each_more, matrix::proofs::Array::entry_in), unfolding(crate::specs::Rules::zero_diagonal))]
fn zero_diagonal(m: &[u32; 144]) -> bool
    ensures { result ≡ zero_diagonal (entry m.now) }
{
    let mut ok = true;
    for x in 0..12 {
        ok &= m[12 * x + x] == 0;
    }
    ok
}

// Kept: the twin of `zero_diagonal`; why, stands there.
// Column y is zero.
#[tactic(auto, using(crate::proofs::Passes::each_more, matrix::proofs::Array::entry_in), unfolding(crate::specs::Rules::zero_column))]
fn zero_column(m: &[u32; 144], y: usize) -> bool
    requires { y < 12 }
    ensures { result ≡ zero_column y (entry m.now) }
{
    let mut ok = true;
    for x in 0..12 {
        ok &= m[12 * x + y] == 0;
    }
    ok
}

// Kept: `matrix_within` and `vector_within` are one call of `each`; their promises speak of a matrix and of a vector.
// No count of the matrix exceeds 1,000,000,000.
fn matrix_within(m: &[u32; 144]) -> bool
    ensures { result ≡ each_below 12 (λ x. each_below 12 (λ y. leb (entry m.now x y) max_count)) }
{
    each(m, |v| v <= wire::MAX_COUNT)
}

// Rows of the matrix from n on are zero: one run of the array.
fn rows_zero_from(m: &[u32; 144], n: usize) -> bool
    requires { n ≤ 12 }
    ensures { result ≡ each_below 12 (λ x. each_below 12 (λ y. ltb x n || eqb (entry m.now x y) 0)) }
{
    each(&m[12 * n..], |v| v == 0)
}

// Row x is zero from column n on.
fn row_zero_from(m: &[u32; 144], x: usize, n: usize) -> bool
    requires { (x < 12) × (n ≤ 12) }
    ensures { result ≡ each_below 12 (λ y. ltb y n || eqb (entry m.now x y) 0) }
{
    let row = &m[12 * x..12 * x + 12];
    each(&row[n..], |v| v == 0)
}

// Rows and columns of the matrix from n on are zero.
fn matrix_zero_from(m: &[u32; 144], n: usize) -> bool
    requires { n ≤ 12 }
    ensures { result ≡ each_below 12 (λ x. each_below 12 (λ y. ltb x n && ltb y n || eqb (entry m.now x y) 0)) }
{
    let mut ok = rows_zero_from(m, n);
    for x in 0..n {
        ok &= row_zero_from(m, x, n);
    }
    ok
}

// Kept: the twin of `matrix_within`; why, stands there.
// No count of the vector exceeds 1,000,000,000.
fn vector_within(v: &[u32; 12]) -> bool
    ensures { result ≡ each_below 12 (λ x. leb (vector v.now x) max_count) }
{
    each(v, |v| v <= wire::MAX_COUNT)
}

// Counts of the vector from n on are zero.
fn vector_zero_from(v: &[u32; 12], n: usize) -> bool
    requires { n ≤ 12 }
    ensures { result ≡ each_below 12 (λ x. ltb x n || eqb (vector v.now x) 0) }
{
    each(&v[n..], |v| v == 0)
}

// The counts keep the rules: a zero diagonal, a zero column me, nothing above the limit, and zeros from n on.
#[tactic(auto, unfolding(crate::specs::Rules::within_limit, crate::specs::Rules::zero_from))]
fn counts_ok<'a>(me: usize, n: usize, m: &'a [u32; 144], v: &'a [u32; 12]) -> bool
    requires { (me < 12) × (n ≤ 12) }
    ensures { result ≡ (zero_diagonal (entry m.now) && zero_column me (entry m.now)
        && within_limit (entry m.now) (vector v.now) && zero_from n (entry m.now) (vector v.now)) }
{
    let within = matrix_within(m) & vector_within(v);
    let outside = matrix_zero_from(m, n) & vector_zero_from(v, n);
    zero_diagonal(m) & zero_column(m, me) & within & outside
}

// Kept: as one chain of `||` it was tried, and four of its goals did not close; its six parameters are the fields of a record that is declared in a crate above.
/// Whether a record with these fields breaks a record rule.
pub fn broken<'a>(me: u8, n: u8, cap: u8, m: &'a [u32; 144], v: &'a [u32; 12], held: u8) -> bool
    ensures { result ≡ broken_rules me n cap (entry m.now) (vector v.now) held }
{
    if !in_range(me as usize, n as usize, cap as usize) {
        return true;
    }
    if matrix::count(m) > cap as u32 {
        return true;
    }
    if wire::MAX_HELD < held as usize {
        return true;
    }
    if v[me as usize] != 0 {
        return true;
    }
    !counts_ok(me as usize, n as usize, m, v)
}

// A count of row me is 1,000,000,000. A loop as in `zero_column`: what it reads are places of the matrix, and an edit tries those of column me.
#[tactic(auto, using(crate::proofs::Passes::some_more, matrix::proofs::Array::entry_in))]
fn row_at_limit(m: &[u32; 144], me: usize) -> bool
    requires { me < 12 }
    ensures { result ≡ some_below 12 (λ y. eqb (entry m.now me y) max_count) }
{
    let mut found = false;
    for y in 0..12 {
        found |= m[12 * me + y] == wire::MAX_COUNT;
    }
    found
}

// A count of the vector is 1,000,000,000.
fn vector_at_limit(v: &[u32; 12]) -> bool
    ensures { result ≡ some_below 12 (λ x. eqb (vector v.now x) max_count) }
{
    !each(v, |v| v != wire::MAX_COUNT)
}

/// Whether an M entry in row me, or a DELIV entry, is 1,000,000,000.
pub fn at_limit<'a>(me: usize, m: &'a [u32; 144], v: &'a [u32; 12]) -> bool
    requires { me < 12 }
    ensures { (d : Node) → d.me ≡ me → d.matrix ≡ entry m.now → d.deliv ≡ vector v.now → result ≡ at_limit d }
{
    row_at_limit(m, me) | vector_at_limit(v)
}
