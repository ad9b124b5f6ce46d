// Numbers in decimal.
ghost use Rattle.std.specs.Prelude.{◌≡◌, ◌+◌, ◌≤◌, ◌<◌, length};
ghost use Rattle.std.proofs.lemmas.List.Edits.{sets};
ghost use Rattle.model.specs.Transcript.{decimal};
ghost use Rattle.decimal_text.specs.LastDigits.{last_digits};

// How many digits a number has.
#[tactic(auto, using(crate::proofs::Digits::decimal_length, crate::proofs::Digits::one_digit))]
pub fn width(n: u64) -> usize
    ensures { result ≡ length (decimal n) }
{
    match n.checked_ilog10() {
        Some(log) => log as usize + 1,
        None => 1,
    }
}

// Puts the two digits of a number below 100. They are made as one word, so that the compiler stores both at once.
fn put_pair(field: &mut [u8], at: usize, n: u64)
    requires small { n < 100 }
    requires room { at + 2 ≤ length field.old }
    ensures { field.new ≡ sets field.old at (last_digits 2 n) }
{
    let word = 48 + n / 10 + 256 * (48 + n % 10);
    field[at] = (word % 256) as u8;
    field[at + 1] = (word / 256 % 256) as u8;
}

// Fills a field with the last digits of a number, the last ones first: four a turn, and then one by one.
pub(crate) fn put_digits(field: &mut [u8], n: u64)
    ensures { field.new ≡ last_digits (length field.old) n }
{
    let few = field.len() % 4;
    let mut rest = n;
    for i in (0..field.len() / 4).rev() {
        let four = rest % 10000;
        let at = few + 4 * i;
        put_pair(field, at, four / 100);
        put_pair(field, at + 2, four % 100);
        rest /= 10000;
    }
    for i in (0..few).rev() {
        field[i] = b'0' + (rest % 10) as u8;
        rest /= 10;
    }
}
