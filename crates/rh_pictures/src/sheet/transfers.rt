//! The table of transfers: a row for each, with the record of either side.

ghost use Rattle.std.specs.Prelude.{◌≡◌, ◌++◌};
ghost use Rattle.rh_pictures.specs.DrawnSides.{ins_of, outs_of};
ghost use Rattle.rh_figure.specs.Figure.{transfers_of};
ghost use Rattle.rh_sheet.specs.Tables.{transfers_table};

use crate::sheet::artist::SheetArtist;
use crate::walks::transfers::{has_transfers, show_transfers};
use rh_lines::Pen;
use rh_scene::Sight;

/// Writes the table of the transfers that go out, each with the side that comes in, and of those that only come in.
pub fn print_transfers<S: Sight, P: Pen>(sight: &S, pen: &mut P)
    ensures { P.offered pen.new ≡ P.offered pen.old
        ++ transfers_table (transfers_of (outs_of (S.desk sight.now)) (ins_of (S.desk sight.now))) }
{
    if !has_transfers(sight) {
        return;
    }
    pen.put(b"<table><caption>Transfers</caption>\n<thead><tr><th>id</th>");
    pen.put(
        b"<th colspan=\"3\">goes out</th><th colspan=\"3\">comes in</th></tr></thead>\n<tbody>\n",
    );
    show_transfers(sight, &SheetArtist, pen);
    pen.put(b"</tbody></table>\n");
}
