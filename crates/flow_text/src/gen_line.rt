//! The line that tells of a generated system.
ghost use Rattle.std.specs.Prelude.{◌≡◌, ◌+◌, ◌≤◌, ◌++◌, length, take};
ghost use Rattle.flow_text.specs.GeneratedLine.{analysis_counts as the_counts, text_size as the_size, gen_line};

use crate::form_counts::{SiteCounts, site_counts};
use crate::lines::put_forms;
use image_model::Image;
use osek_values::limits::LINE_MAX;
use text_pieces::{put, put_decimal};

/// What the analysis of an application counts.
#[derive(Clone, Copy)]
pub struct AnalysisCounts {
    pub points: u64,
    /// How high a table can be.
    pub height: u64,
    /// How many values its table has.
    pub values: u64,
    pub forms: SiteCounts,
}

/// How long a text is.
#[derive(Clone, Copy)]
pub struct TextSize {
    pub bytes: usize,
    pub lines: usize,
}

impl TextSize {
    /// The size of a text.
    pub fn of(text: &[u8]) -> TextSize
        ensures { result ≡ the_size text.now }
    {
        TextSize {
            bytes: text.len(),
            lines: text.iter().filter(|byte| **byte == b'\n').count(),
        }
    }
}

/// What the analysis of an image's application counts, where its table has so many values.
pub fn analysis_counts(image: &Image, values: u64) -> AnalysisCounts
    ensures { result ≡ the_counts image.now values }
{
    AnalysisCounts {
        points: image.app.points(),
        height: image.app.height(),
        values,
        forms: site_counts(image),
    }
}

/// Writes the line of a generated system, and answers its length. It takes no memory.
pub fn write_gen_line(counts: AnalysisCounts, text: TextSize, buf: &mut [u8]) -> usize
    requires { LINE_MAX ≤ length buf.old }
    ensures line { take result buf.new ≡ gen_line counts text }
    ensures most { result ≤ LINE_MAX }
{
    let at = put(buf, 0, b"points ");
    let at = put_decimal(buf, at, counts.points);
    let at = put(buf, at, b" height ");
    let at = put_decimal(buf, at, counts.height);
    let at = put(buf, at, b" values ");
    let at = put_decimal(buf, at, counts.values);
    let at = put(buf, at, b" ");
    let at = put_forms(buf, at, counts.forms);
    let at = put(buf, at, b" bytes ");
    let at = put_decimal(buf, at, text.bytes as u64);
    let at = put(buf, at, b" lines ");
    let at = put_decimal(buf, at, text.lines as u64);
    put(buf, at, b"\n")
}
