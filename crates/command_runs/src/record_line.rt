//! A line of a record that is to be put.
ghost use Rattle.command_runs.specs.{Playing.{point_line}, declared.record_line.TheConstants.{RECORD_LINE_MAX as the_record_line_max}};

use generic_kernel::point_of;
use image_run::Machine;
use osek_io::Piece;
use text_pieces::put_byte;
use trace_text::{MAX_POINT, put_point};

/// The most bytes of a point and its LF.
const RECORD_LINE_MAX: usize = MAX_POINT + 1;

/// The point of a machine's state, with its LF.
#[derive(Clone, Copy)]
pub struct RecordLine<'a> {
    pub machine: &'a Machine,
}

impl<'a> Piece for RecordLine<'a> {
    ghost text = { λ l. point_line l.machine.now.image l.machine.now.state };

    ghost room = { λ _. the_record_line_max };

    fn room(&self) -> usize {
        RECORD_LINE_MAX
    }

    #[inline(always)]
    fn write_at(&self, into: &mut [u8], at: usize) -> usize {
        let app = self.machine.app();
        let at = put_point(into, at, app, point_of(app, self.machine.state()));
        put_byte(into, at, b'\n')
    }
}
