//! Quotients in the columns of tables.
use crate::writer::Writer;

/// A part of a whole, or a number for each of so many, as a table tells it.
#[derive(Clone, Copy)]
pub enum Ratio {
    /// In per cent, to a tenth.
    Percent(u64, u64),
    /// In per cent, to a hundredth.
    FinePercent(u64, u64),
    /// To a hundredth.
    Plain(u64, u64),
}

impl Ratio {
    // How many tenths or hundredths it has, rounded; nothing where the whole is 0.
    fn rounded(self) -> Option<u64> {
        let (part, whole, parts): (u64, u64, u64) = match self {
            Ratio::Percent(part, whole) => (part, whole, 1000),
            Ratio::FinePercent(part, whole) => (part, whole, 10_000),
            Ratio::Plain(part, whole) => (part, whole, 100),
        };
        let sum = part.saturating_mul(parts).saturating_add(whole / 2);
        sum.checked_div(whole)
    }
}

impl Writer {
    /// Appends a blank and a ratio in a column of this width; what stands for none where the whole is 0.
    pub fn push_ratio(&mut self, ratio: Ratio, width: usize, none: &str) {
        match (ratio.rounded(), ratio) {
            (Some(tenths), Ratio::Percent(..)) => self.push_tenths(tenths, width),
            (Some(hundredths), _) => self.push_hundredths(hundredths, width),
            (None, _) => write!(self, " {none:>width$}"),
        }
    }

    // Appends a blank and so many tenths in a column of this width.
    fn push_tenths(&mut self, tenths: u64, width: usize) {
        let (ones, rest, before) = (tenths / 10, tenths % 10, width.saturating_sub(2));
        write!(self, " {ones:>before$}.{rest}");
    }

    // Appends a blank and so many hundredths in a column of this width.
    fn push_hundredths(&mut self, hundredths: u64, width: usize) {
        let (ones, rest, before) = (hundredths / 100, hundredths % 100, width.saturating_sub(3));
        write!(self, " {ones:>before$}.{rest:02}");
    }
}
