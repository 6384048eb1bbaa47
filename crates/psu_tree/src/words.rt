//! The nodes of a header.
ghost use Rattle.std.specs.Prelude.{◌≡◌, ◌≤◌, ◌<◌, [], ◌∷◌, ◌++◌, ℕ, List, length, take, drop, map, true, MatchBool};
ghost use Rattle.psu_lex.specs.Shown.{ShowsHeader};
ghost use Rattle.psu_lex.specs.Syntax.{HeaderParts, IsHeader, all_nodes, behind, is_node};
ghost use Rattle.psu_tree.specs.Path.{words_of};
ghost use Rattle.psu_tree.specs.Scans.{after_node, node_of};

use crate::Path;
use arrayvec::ArrayVec;
use psu_lex::{HeaderMark, UnitHeader};

/// The maximum number of nodes of a header in the table.
pub(crate) const NODES_MOST: usize = 5;

/// Nodes as written.
pub(crate) type Words<'a> = ArrayVec<&'a [u8], NODES_MOST>;

// Returns the length of the first node.
fn node_end(text: &[u8]) -> usize
    ensures within { result ≤ length text.now }
    ensures node { take result text.now ≡ node_of text.now }
    ensures rest { drop result text.now ≡ after_node text.now }
{
    for at in 0..text.len() {
        if text[at] == b':' {
            return at;
        }
    }
    text.len()
}

// Appends the nodes of a text, which are separated by `:`, and returns whether they fit; only some are appended where
// they do not.
fn add_nodes<'a>(words: &mut Words<'a>, text: &'a [u8]) -> bool
    ensures { (node : List ℕ) (nodes : List (List ℕ)) → is_node node ≡ true → all_nodes nodes ≡ true → text.now ≡ node ++ behind nodes →
        MatchBool result (map (λ word. word.now) words.new.items ≡ map (λ word. word.now) words.old.items ++ node ∷ nodes)
        (5 < length (map (λ word. word.now) words.old.items ++ node ∷ nodes)) }
{
    let (node, rest) = text.split_at(node_end(text));
    if words.try_push(node).is_err() {
        return false;
    }
    let Some((_, others)) = rest.split_first() else {
        return true;
    };
    add_nodes(words, others)
}

// Appends the nodes of a path.
fn add_path<'a>(words: &mut Words<'a>, path: &Path<'a>)
    requires { words.old.items ≡ [] }
    ensures { map (λ word. word.now) words.new.items ≡ path.now }
{
    if path.words.is_empty() {
        return;
    }
    let _ = words.try_extend_from_slice(path.words.as_slice());
}

/// Makes `words` the nodes of a header from the root on, where `*` is a node of its own. Returns false where there are
/// more than a header of the table has.
pub(crate) fn add_words<'a>(words: &mut Words<'a>, path: &Path<'a>, header: &UnitHeader<'a>) -> bool
    requires { words.old.items ≡ [] }
    ensures { (h : HeaderParts) → IsHeader h → ShowsHeader header.now h →
        MatchBool result (map (λ word. word.now) words.new.items ≡ words_of path.now h) (5 < length (words_of path.now h)) }
{
    match header.mark {
        HeaderMark::Star => {
            words.push(b"*");
        }
        HeaderMark::Colon => {}
        HeaderMark::Bare => add_path(words, path),
    }
    add_nodes(words, header.nodes)
}
