// Measures.

use std::ops::{Add, Div, Mul, Sub};

/// A measure in pixels. A sum or product beyond the type's end is that end, and a difference below 0 is 0: no picture comes near.
#[derive(Clone, Copy, PartialEq, Eq, PartialOrd)]
pub(crate) struct Px(pub(crate) u64);

impl Add for Px {
    type Output = Px;

    fn add(self, other: Px) -> Px {
        Px(self.0.saturating_add(other.0))
    }
}

impl Add<u64> for Px {
    type Output = Px;

    fn add(self, other: u64) -> Px {
        Px(self.0.saturating_add(other))
    }
}

impl Sub for Px {
    type Output = Px;

    fn sub(self, other: Px) -> Px {
        Px(self.0.saturating_sub(other.0))
    }
}

impl Sub<u64> for Px {
    type Output = Px;

    fn sub(self, other: u64) -> Px {
        Px(self.0.saturating_sub(other))
    }
}

impl Mul<u64> for Px {
    type Output = Px;

    fn mul(self, times: u64) -> Px {
        Px(self.0.saturating_mul(times))
    }
}

/// A part of a measure; none of it where there are no parts.
impl Div<u64> for Px {
    type Output = Px;

    fn div(self, parts: u64) -> Px {
        match self.0.checked_div(parts) {
            Some(part) => Px(part),
            None => Px(0),
        }
    }
}

impl Px {
    /// The greater of two.
    pub(crate) fn max(self, other: Px) -> Px {
        if other.0 > self.0 { other } else { self }
    }

    /// The lesser of two.
    pub(crate) fn min(self, other: Px) -> Px {
        if other.0 < self.0 { other } else { self }
    }

    /// How far two are apart.
    pub(crate) fn apart(self, other: Px) -> Px {
        (self - other).max(other - self)
    }
}

/// A box.
#[derive(Clone, Copy)]
pub(crate) struct Bounds {
    pub(crate) x: Px,
    pub(crate) y: Px,
    pub(crate) wide: Px,
    pub(crate) high: Px,
}

/// A box of no size.
pub(crate) fn nowhere() -> Bounds {
    Bounds {
        x: Px(0),
        y: Px(0),
        wide: Px(0),
        high: Px(0),
    }
}

/// The measure of that number in a list, 0 beyond its end.
pub(crate) fn at(list: &[Px], number: usize) -> Px {
    match list.get(number) {
        Some(measure) => *measure,
        None => Px(0),
    }
}

/// Makes the measure of that number this one; beyond the list's end there is none.
pub(crate) fn set_at(list: &mut [Px], number: usize, measure: Px) {
    if number < list.len() {
        list[number] = measure;
    }
}

/// Makes the measure of that number at least so much.
pub(crate) fn widen(list: &mut [Px], number: usize, least: Px) {
    let measure = at(list, number).max(least);
    set_at(list, number, measure);
}

/// How wide so many letters of a fixed-width face are, in a size of so many tenths of a pixel: 0.602 of the size each.
pub(crate) fn width(letters: usize, tenths: u64) -> Px {
    (Px(letters as u64) * tenths * 602 + 9_999) / 10_000
}

impl Px {
    /// The measure as a picture has it.
    pub(crate) fn small(self) -> u32 {
        if self.0 < 4_000_000_000 {
            self.0 as u32
        } else {
            4_000_000_000
        }
    }
}
