// Units of quantities.
ghost use Rattle.std.specs.Prelude.{◌≡◌, ◌≤◌};
ghost use Rattle.std.specs.Option.{ForSome};
ghost use Rattle.ns_words.specs.Quantities.{rate_units, time_units, loss_units, second_units};
ghost use Rattle.ns_words.specs.Values.{scale_of};
ghost use Rattle.ns_words.specs.Letters.{letter_scale, is_ending, ended};

/// The most that a unit has of its smallest part.
pub(crate) const MAX_SCALE: u64 = 1_000_000_000;

/// The factor of a letter before `b` or `bps`.
fn letter_scale(letter: u8) -> Option<u64>
    ensures { result ≡ letter_scale letter }
{
    match letter {
        b'k' | b'K' => Some(1_000),
        b'm' | b'M' => Some(1_000_000),
        b'g' | b'G' => Some(1_000_000_000),
        _ => None,
    }
}

fn is_ending(bytes: &[u8]) -> bool
    ensures { result ≡ is_ending bytes.now }
{
    bytes.is_empty() || bytes == b"b".as_slice() || bytes == b"bps".as_slice()
}

fn ended(ending: &[u8], scale: u64) -> Option<u64>
    ensures { result ≡ ended ending.now scale }
{
    if is_ending(ending) { Some(scale) } else { None }
}

/// The bits per second of a unit of bandwidth.
pub(crate) fn rate_scale(unit: &[u8]) -> Option<u64>
    ensures value { result ≡ scale_of rate_units unit.now }
    ensures limits { ForSome result (λ scale. (1 ≤ scale) × (scale ≤ MAX_SCALE)) }
{
    match unit {
        [letter, ending @ ..] => match letter_scale(*letter) {
            Some(scale) => ended(ending, scale),
            None => ended(unit, 1),
        },
        [] => Some(1),
    }
}

/// The microseconds of a unit of time.
pub(crate) fn time_scale(unit: &[u8]) -> Option<u64>
    ensures value { result ≡ scale_of time_units unit.now }
    ensures limits { ForSome result (λ scale. (1 ≤ scale) × (scale ≤ MAX_SCALE)) }
{
    if unit.is_empty() || unit == b"s".as_slice() {
        Some(1_000_000)
    } else if unit == b"ms".as_slice() {
        Some(1_000)
    } else if unit == b"us".as_slice() {
        Some(1)
    } else {
        None
    }
}

/// The unit of a loss, which is the empty word.
pub(crate) fn loss_scale(unit: &[u8]) -> Option<u64>
    ensures value { result ≡ scale_of loss_units unit.now }
    ensures limits { ForSome result (λ scale. (1 ≤ scale) × (scale ≤ MAX_SCALE)) }
{
    if unit.is_empty() {
        Some(1_000_000)
    } else {
        None
    }
}

/// The microseconds of a time's unit, which is always the second.
pub(crate) fn second_scale(unit: &[u8]) -> Option<u64>
    ensures value { result ≡ scale_of second_units unit.now }
    ensures limits { ForSome result (λ scale. (1 ≤ scale) × (scale ≤ MAX_SCALE)) }
{
    if unit.is_empty() {
        Some(1_000_000)
    } else {
        None
    }
}
