// Numbers as text, put into a lent page one after the other: each function takes the place where it starts and gives the place after its text, and cannot
// fail, which std's printing does not promise of itself (`Display` promises a text only where it answers `Ok`).
#![tactic(auto)]

ghost use Rattle.std.specs.Prelude.{◌≡◌, [], ◌∷◌, ◌++◌, ◌+◌, ◌≤◌, ◌<◌, length, take};
ghost use Rattle.text.specs.Text.{digits_of, signed_of, words_of};

pub fn put(out: &mut [u8], at: usize, b: u8) -> usize
    requires { at < length out.old }
    ensures value { result ≡ at + 1 }
    ensures out_after { take result out.new ≡ take at out.old ++ (b ∷ []) }
{
    out[at] = b;
    at + 1
}

// The decimal digits of n, at most `most` of them.
#[tactic(auto, using(std::proofs::Common::append_assoc, crate::proofs::Joined::one_digit, crate::proofs::Joined::more_digits), unfolding(crate::specs::Text::digits_of))]
pub fn digits(out: &mut [u8], at: usize, n: u32, most: usize) -> usize
    requires { at + most ≤ length out.old }
    ensures upper_bound { result ≤ at + most }
    ensures out_after { take result out.new ≡ take at out.old ++ digits_of most n }
{
    if most == 0 {
        return at;
    }
    if n < 10 {
        return put(out, at, 48 + n as u8);
    }
    let next = digits(out, at, n / 10, most - 1);
    put(out, next, 48 + (n % 10) as u8)
}

// A whole number, with its sign where it is negative.
#[tactic(auto, using(std::proofs::Common::append_assoc, crate::proofs::Joined::with_sign_lem, crate::proofs::Joined::without_sign))]
pub fn signed(out: &mut [u8], at: usize, w: i32) -> usize
    requires { at + 11 ≤ length out.old }
    ensures upper_bound { result ≤ at + 11 }
    ensures out_after { take result out.new ≡ take at out.old ++ signed_of w }
{
    if w < 0 {
        let next = put(out, at, b'-');
        return digits(out, next, w.unsigned_abs(), 10);
    }
    digits(out, at, w.unsigned_abs(), 10)
}

// Twelve words, each after a blank.
pub fn words(out: &mut [u8], at: usize, rx: [i32; 12]) -> usize
    requires { at + 144 ≤ length out.old }
    ensures upper_bound { result ≤ at + 144 }
    ensures out_after { take result out.new ≡ take at out.old ++ words_of rx }
{
    let mut next = at;
    for w in rx {
        let after = put(out, next, b' ');
        next = signed(out, after, w);
    }
    next
}
