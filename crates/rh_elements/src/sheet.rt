//! The beginning and the end of a sheet.

ghost use Rattle.std.specs.Prelude.{◌≡◌, ◌≤◌, ◌++◌};
ghost use Rattle.std.specs.List.{flat_map, range_with_len};
ghost use Rattle.rh_defs.specs.declared.sizes.TheConstants.{MAX_PAGES};
ghost use Rattle.rh_sheet.specs.Fixed.{key_text, signs_text, style_text};
ghost use Rattle.rh_sheet.specs.Sheet.{left_text, links_begin, numbered_link, shared_text, sheet_foot, sheet_head};
ghost use Rattle.rh_sheet.specs.Sheet.{title_text};
ghost use Rattle.rh_sheet.specs.declared.sizes.TheConstants.{MOST_STEPS};

use crate::links::print_numbered_link;
use crate::pool::print_grid;
use crate::remarks::put_remark;
use rh_lines::{Pen, Row};
use rh_sheet::key::KEY;
use rh_sheet::signs::SIGNS;
use rh_sheet::style::STYLE;

/// What stands before a sheet's title.
const BEFORE_TITLE: &[u8] =
    b"<!DOCTYPE html>\n<html lang=\"en\" xmlns=\"http://www.w3.org/1999/xhtml\">\n<head>\n\
<meta charset=\"utf-8\"/>\n<meta name=\"viewport\" content=\"width=device-width, initial-scale=1\"/>\n<title>";

/// Writes how a sheet looks.
#[tactic(auto, unfolding(rh_sheet::specs::Fixed::style_text))]
fn put_style<P: Pen>(pen: &mut P)
    ensures { P.offered pen.new ≡ P.offered pen.old ++ style_text }
{
    pen.put(STYLE);
}

/// Writes what figures are painted with.
#[tactic(auto, unfolding(rh_sheet::specs::Fixed::signs_text))]
fn put_signs<P: Pen>(pen: &mut P)
    ensures { P.offered pen.new ≡ P.offered pen.old ++ signs_text }
{
    pen.put(SIGNS);
}

/// Writes how figures are read.
#[tactic(auto, unfolding(rh_sheet::specs::Fixed::key_text))]
fn put_key<P: Pen>(pen: &mut P)
    ensures { P.offered pen.new ≡ P.offered pen.old ++ key_text }
{
    pen.put(KEY);
}

/// Writes the head of a sheet with a title.
fn print_title<P: Pen>(name: &[u8], pen: &mut P)
    ensures { P.offered pen.new ≡ P.offered pen.old ++ title_text name.now }
{
    pen.put(BEFORE_TITLE);
    put_remark(name, pen);
    pen.put(b"</title>\n<style>\n");
    put_style(pen);
    pen.put(b"</style>\n</head>\n");
}

/// Writes what the figures of a sheet over so many pages share.
fn print_shared<P: Pen>(pages: u32, pen: &mut P)
    requires { pages ≤ MAX_PAGES }
    ensures { P.offered pen.new ≡ P.offered pen.old ++ shared_text pages }
{
    pen.put(b"<svg class=\"defs\" aria-hidden=\"true\"><defs>\n");
    put_signs(pen);
    print_grid(pages, pen);
    pen.put(b"</defs></svg>\n");
}

/// Writes the beginning of a sheet over so many pages, with the name of its script.
pub fn print_head<P: Pen>(name: &[u8], pages: u32, pen: &mut P)
    requires { pages ≤ MAX_PAGES }
    ensures { P.offered pen.new ≡ P.offered pen.old ++ sheet_head name.now pages }
{
    print_title(name, pen);
    pen.put(b"<body id=\"all\">\n");
    print_shared(pages, pen);
    pen.put(b"<header><h1>");
    put_remark(name, pen);
    pen.put(b"</h1>\n");
    put_key(pen);
    pen.put(b"</header>\n<main>\n");
}

/// Writes how many commands have no step, if some have none.
fn print_left<P: Pen>(left: u32, pen: &mut P)
    ensures { P.offered pen.new ≡ P.offered pen.old ++ left_text left }
{
    if left == 0 {
        return;
    }
    let mut row = Row::new();
    row.text(b"<p>Commands not drawn: ");
    row.decimal(left);
    row.text(b".</p>\n");
    pen.put(row.as_slice());
}

/// Writes the beginning of the links, where step n would stand.
fn print_links_begin<P: Pen>(n: u32, pen: &mut P)
    ensures { P.offered pen.new ≡ P.offered pen.old ++ links_begin n }
{
    let mut row = Row::new();
    row.text(b"</main>\n<nav id=\"d");
    row.decimal(n);
    row.text(b"\">\n");
    pen.put(row.as_slice());
}

/// Writes a link to each of n steps.
fn print_links<P: Pen>(n: u32, pen: &mut P)
    requires { n ≤ MOST_STEPS }
    ensures { P.offered pen.new ≡ P.offered pen.old ++ flat_map numbered_link (range_with_len 1 n) }
{
    for i in 1..n + 1 {
        print_numbered_link(i, pen);
    }
}

/// Writes the end of a sheet of n steps, where so many commands have none.
pub fn print_foot<P: Pen>(n: u32, left: u32, pen: &mut P)
    requires { n ≤ MOST_STEPS }
    ensures { P.offered pen.new ≡ P.offered pen.old ++ sheet_foot n left }
{
    print_left(left, pen);
    print_links_begin(n + 1, pen);
    print_links(n, pen);
    pen.put(b"</nav>\n</body>\n</html>\n");
}
