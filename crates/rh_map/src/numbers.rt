//! Lists of page numbers.

ghost use Rattle.std.specs.Prelude.{◌≡◌, ◌≤◌, ◌+◌, ◌*◌, ◌++◌, codes, flat_map, length};
ghost use Rattle.std.specs.Fmt.{decimal};
ghost use Rattle.std.specs.List.{join_by};
ghost use Rattle.rh_defs.specs.declared.sizes.TheConstants.{MAX_PAGES};
ghost use Rattle.rh_figure.specs.Phrases.{and_more, listed_numbers};
ghost use Rattle.rh_figure.specs.declared.limits.TheConstants.{MOST_LISTED};
ghost use Rattle.rh_lines.specs.declared.row.TheConstants.{ROW};

use rh_figure::limits::MOST_LISTED;
use rh_lines::Row;

/// Adds the first of some numbers, and how many more there are.
pub fn add_numbers(row: &mut Row, numbers: &[u16])
    requires few { length numbers.now ≤ MAX_PAGES }
    requires room { length row.old + 164 ≤ ROW }
    ensures value { row.new ≡ row.old ++ listed_numbers numbers.now }
    ensures short { length row.new ≤ length row.old + 164 }
{
    add_spaced(row, &numbers[..numbers.len().min(MOST_LISTED)]);
    add_more(row, numbers.len());
}

/// Adds numbers with a space between them.
fn add_spaced(row: &mut Row, numbers: &[u16])
    requires few { length numbers.now ≤ MOST_LISTED }
    requires room { length row.old + 143 ≤ ROW }
    ensures value { row.new ≡ row.old ++ join_by decimal (codes " ") numbers.now }
    ensures short { length row.new ≤ length row.old + 143 }
{
    if let Some((first, others)) = numbers.split_first() {
        row.decimal(u32::from(*first));
        add_others(row, others);
    }
}

/// Adds numbers with a space before each.
fn add_others(row: &mut Row, numbers: &[u16])
    requires { length row.old + 12 * length numbers.now ≤ ROW }
    ensures value { row.new ≡ row.old ++ flat_map (λ n. codes " " ++ decimal n) numbers.now }
    ensures short { length row.new ≤ length row.old + 12 * length numbers.now }
{
    for number in numbers {
        row.byte(b' ');
        row.decimal(u32::from(*number));
    }
}

/// Adds how many of n aren't named.
pub fn add_more(row: &mut Row, n: usize)
    requires few { n ≤ MAX_PAGES }
    requires room { length row.old + 21 ≤ ROW }
    ensures value { row.new ≡ row.old ++ and_more n }
    ensures short { length row.new ≤ length row.old + 21 }
{
    if n > MOST_LISTED {
        row.text(b" and ");
        row.decimal((n - MOST_LISTED) as u32);
        row.text(b" more");
    }
}
