//! How wide a picture is on paper.
use crate::layout::Pixels;
use std::fmt;

/// A unit of length.
#[derive(Clone, Copy, Debug, PartialEq, Eq)]
pub enum Unit {
    Millimetre,
    Centimetre,
    Inch,
    Point,
    Pixel,
}

/// All units.
const UNITS: [Unit; 5] = [
    Unit::Millimetre,
    Unit::Centimetre,
    Unit::Inch,
    Unit::Point,
    Unit::Pixel,
];

impl Unit {
    fn name(self) -> &'static str {
        match self {
            Unit::Millimetre => "mm",
            Unit::Centimetre => "cm",
            Unit::Inch => "in",
            Unit::Point => "pt",
            Unit::Pixel => "px",
        }
    }

    /// Returns how many of this unit are as long as how many pixels, of which an inch has 96.
    fn ratio(self) -> (u64, u64) {
        match self {
            Unit::Millimetre => (254, 960),
            Unit::Centimetre => (254, 9600),
            Unit::Inch => (1, 96),
            Unit::Point => (3, 4),
            Unit::Pixel => (1, 1),
        }
    }
}

/// A length in hundredths of a unit.
#[derive(Clone, Copy, Debug, PartialEq, Eq)]
pub struct Length {
    pub hundredths: u64,
    pub unit: Unit,
}

impl Length {
    /// The least and the greatest width of a picture.
    pub const LEAST: u64 = 226;

    pub const MOST: u64 = 20000;

    /// Returns the length that a text says, as `84mm` or `3.25in`, where a picture may be so wide.
    pub fn from_text(text: &str) -> Option<Length> {
        for unit in UNITS {
            if let Some(number) = text.strip_suffix(unit.name()) {
                let length = Length {
                    hundredths: hundredths_in(number)?,
                    unit,
                };
                let pixels = length.pixels().0;
                return Some(length).filter(|_| Length::LEAST <= pixels && pixels <= Length::MOST);
            }
        }
        None
    }

    /// Returns how many pixels this is, rounded down.
    pub fn pixels(self) -> Pixels {
        let (units, pixels) = self.unit.ratio();
        Pixels(self.hundredths.saturating_mul(pixels) / units.saturating_mul(100).max(1))
    }

    /// Returns the length of so many pixels in the same unit, of which so many are as long as this.
    pub fn scaled(self, part: Pixels, whole: Pixels) -> Length {
        Length {
            hundredths: self.hundredths.saturating_mul(part.0) / whole.0.max(1),
            unit: self.unit,
        }
    }
}

/// Returns the number that a text says, in hundredths: digits, and perhaps a point with one or two.
fn hundredths_in(text: &str) -> Option<u64> {
    let (whole, part) = match text.split_once('.') {
        Some((whole, part)) => (whole, part),
        None => (text, ""),
    };
    let part = match part.len() {
        0 if whole.len() != text.len() => return None,
        0 => 0,
        1 => digits_in(part)?.saturating_mul(10),
        2 => digits_in(part)?,
        _ => return None,
    };
    Some(digits_in(whole)?.saturating_mul(100).saturating_add(part))
}

fn digits_in(text: &str) -> Option<u64> {
    if text.is_empty() || !text.bytes().all(|byte| byte.is_ascii_digit()) {
        return None;
    }
    text.parse::<u64>().ok()
}

impl fmt::Display for Length {
    fn fmt<W: fmt::Write>(&self, f: &mut fmt::Formatter<W>) -> fmt::Result {
        let (whole, part) = (self.hundredths / 100, self.hundredths % 100);
        let unit = self.unit.name();
        write!(f, "{whole}.{part:02}{unit}")
    }
}
