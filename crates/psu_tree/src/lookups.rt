//! The row of a header. Rows whose first letter differs from the header's are skipped.
ghost use Rattle.std.specs.Prelude.{◌≡◌, ◌==◌, ◌&&◌, not, true, false, map, if◌then◌else◌};
ghost use Rattle.std.specs.Option.{option_copied};
ghost use Rattle.psu_tree.specs.Headers.{form_for, fits, in_brackets};
ghost use Rattle.psu_tree.specs.Scans.{begins_apart, first_letter, is_apart, rows_apart, second_letter};
ghost use Rattle.psu_tree.specs.Shown.{each_begins, entries, mnemonic, named_of, row_at, row_after, row_either};
ghost use Rattle.psu_tree.specs.Table.{table};

use crate::walks::{capital, is_named, is_small, may_miss, patterns, walk};
use crate::{Form, Node, Row, Section};

// Returns the first letter of the words, as a capital; 0 where there is none.
fn first_letter(words: &[&[u8]]) -> u8
    ensures { result ≡ first_letter (map (λ word. word.now) words.now) }
{
    let Some((word, _)) = words.split_first() else {
        return 0;
    };
    let Some((letter, _)) = word.split_first() else {
        return 0;
    };
    capital(*letter)
}

// Returns the second letter of the first word, as a capital; 0 where there is none.
fn second_letter(words: &[&[u8]]) -> u8
    ensures { result ≡ second_letter (map (λ word. word.now) words.now) }
{
    let Some((word, _)) = words.split_first() else {
        return 0;
    };
    let Some((_, letters)) = word.split_first() else {
        return 0;
    };
    let Some((letter, _)) = letters.split_first() else {
        return 0;
    };
    capital(*letter)
}

// Whether the mnemonic begins with a capital other than this letter.
#[inline(always)]
fn begins_apart(letter: u8, name: &[u8]) -> bool
    ensures { result ≡ begins_apart letter name.now }
{
    let Some((first, _)) = name.split_first() else {
        return false;
    };
    !is_small(*first) && *first != letter
}

// Whether the node is required and no word with this first letter names it.
#[inline(always)]
fn is_apart(letter: u8, node: &Node) -> bool
    ensures { result ≡ is_apart letter (mnemonic node.now) }
{
    !may_miss(node.kind) && begins_apart(letter, node.name.as_bytes())
}

// Whether the first of the nodes is required and no word with this first letter names it.
#[inline(always)]
fn rows_apart(letter: u8, nodes: &[Node]) -> bool
    ensures { result ≡ rows_apart letter (map mnemonic nodes.now) }
{
    let Some((node, _)) = nodes.split_first() else {
        return false;
    };
    is_apart(letter, node)
}

// Whether these words, which have this first letter, match the nodes.
#[inline(always)]
fn fits(letter: u8, nodes: &[Node], words: &[&[u8]]) -> bool
    requires { letter ≡ first_letter (map (λ word. word.now) words.now) }
    ensures { result ≡ fits (map mnemonic nodes.now) (map (λ word. word.now) words.now) }
{
    if rows_apart(letter, nodes) {
        return false;
    }
    walk(nodes, words)
}

// Returns the first of the rows that the words match.
fn row_at<'a>(letter: u8, rows: &'a [Row], words: &[&[u8]]) -> Option<&'a Row>
    requires { letter ≡ first_letter (map (λ word. word.now) words.now) }
    ensures { option_copied result ≡ row_at rows.now (map (λ word. word.now) words.now) }
{
    for row in rows {
        if fits(letter, row.nodes, words) {
            return Some(row);
        }
    }
    None
}

// Returns the first of the rows whose nodes match the words after the root (`later`) or, with the root left out, all
// words.
fn row_either<'a>(letter: u8, rows: &'a [Row], words: &[&[u8]], later: &[&[u8]]) -> Option<&'a Row>
    requires { letter ≡ first_letter (map (λ word. word.now) words.now) }
    ensures { option_copied result ≡ row_either rows.now (map (λ word. word.now) words.now) (map (λ word. word.now) later.now) }
{
    let second = first_letter(later);
    for row in rows {
        if fits(second, row.nodes, later) {
            return Some(row);
        }
        if fits(letter, row.nodes, words) {
            return Some(row);
        }
    }
    None
}

// Whether the first word names the root. It does so only if the words begin with the root's letters.
fn is_named_first(begins: bool, root: &Node, words: &[&[u8]]) -> bool
    requires { begins ≡ false → named_of root.now (map (λ word. word.now) words.now) ≡ false }
    ensures { result ≡ named_of root.now (map (λ word. word.now) words.now) }
{
    if !begins {
        return false;
    }
    let Some((word, _)) = words.split_first() else {
        return false;
    };
    is_named(root, word)
}

// Returns the first of a section's rows that the words match. It is kept out of line, so that passing over sections
// has the registers to itself.
#[inline(never)]
fn row_in<'a>(letter: u8, begins: bool, section: &'a Section, words: &[&[u8]]) -> Option<&'a Row>
    requires letter { letter ≡ first_letter (map (λ word. word.now) words.now) }
    requires named { begins ≡ false → named_of section.now.root (map (λ word. word.now) words.now) ≡ false }
    ensures { option_copied result ≡ row_after (named_of section.now.root (map (λ word. word.now) words.now))
        (in_brackets section.now.root.kind) section.now.rows.now (map (λ word. word.now) words.now) }
{
    let missing = may_miss(section.root.kind);
    if !is_named_first(begins, &section.root, words) {
        return if missing {
            row_at(letter, section.rows, words)
        } else {
            None
        };
    }
    let Some((_, later)) = words.split_first() else {
        return None;
    };
    if missing {
        row_either(letter, section.rows, words, later)
    } else {
        row_at(first_letter(later), section.rows, later)
    }
}

// Returns the form of a row, with or without a `?`.
fn row_form(row: &Row, asks: bool) -> Option<Form>
    ensures { result ≡ (if asks then row.now.query else row.now.command) }
{
    if asks { row.query } else { row.command }
}

// Whether a section is skipped: its root is required, and the words do not begin with its letters.
#[inline(always)]
fn is_passed(begins: bool, section: &Section) -> bool
    ensures { result ≡ (not begins && not (in_brackets section.now.root.kind)) }
{
    !begins && !may_miss(section.root.kind)
}

// Whether the node of a section begins with these letters.
#[inline(always)]
fn has_letters(section: &Section, first: u8, second: u8) -> bool
    ensures { result ≡ (section.now.first == first && section.now.second == second) }
{
    section.first == first && section.second == second
}

// Returns the form of the first row that the words match.
fn form_in(sections: &[Section], words: &[&[u8]], asks: bool) -> Option<Form>
    requires { each_begins sections.now ≡ true }
    ensures { result ≡ form_for (entries sections.now) (map (λ word. word.now) words.now) asks }
{
    let first = first_letter(words);
    let second = second_letter(words);
    let mut rest = sections;
    'sections: while let Some((section, others)) = rest.split_first() {
        rest = others;
        let begins = has_letters(section, first, second);
        if is_passed(begins, section) {
            continue;
        }
        if let Some(row) = row_in(first, begins, section, words) {
            return row_form(row, asks);
        }
    }
    None
}

/// Returns the form in the table of a header with these nodes, with or without a `?`; `None` where no row has such a
/// header.
pub fn form_of(words: &[&[u8]], asks: bool) -> Option<Form>
    ensures { result ≡ form_for table (map (λ word. word.now) words.now) asks }
{
    form_in(patterns(), words, asks)
}
