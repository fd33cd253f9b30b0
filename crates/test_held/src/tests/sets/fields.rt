//! Tests of sets of structs that are compared by one field. Another program computed the expected hashes from the definitions.
ghost use Rattle.std.specs.Prelude.{◌≡◌};

use super::assert_same;
use std::alloc::{AllocError, Global};
use std::test::Fail;
use table_sets::{
    ByField, HeldSet, Inserted, KeyLaw, NumberLaw, OfField, OfParts, PairsOf, SetLaw, TextLaw,
};

/// A word, and the number of a line that has it.
#[derive(Drop)]
struct Word {
    text: String,
    line: u32,
}

impl ByField for Word {
    type Field = String;

    ghost field_of = { λ word. word.text };

    fn field(&self) -> &String {
        &self.text
    }
}

/// The shape of a node, and its height.
#[derive(Drop)]
struct Node {
    shape: (char, u32, u64),
    height: u32,
}

impl ByField for Node {
    type Field = (char, u32, u64);

    ghost field_of = { λ node. node.shape };

    fn field(&self) -> &(char, u32, u64) {
        &self.shape
    }
}

/// The law of nodes: two nodes are equal if their shapes are.
type NodeLaw = OfField<OfParts<NumberLaw>>;

/// A set of boxed nodes.
type Nodes = HeldSet<Box<Node>, NodeLaw>;

/// Inserts a node. Returns the height of the node that the set returns, or 0 if the node was placed. `Err`: no memory.
fn insert(nodes: &mut Nodes, alloc: Global, node: Node) -> Result<u32, AllocError> {
    match nodes.insert(Box::new(alloc, node)?) {
        Inserted::Placed => Ok(0),
        Inserted::Found(back) => Ok(back.height),
        Inserted::Refused(_) => Err(AllocError),
    }
}

/// Checks that two nodes of one shape are equal, whatever their heights, and that a look-up by the shape finds the entry.
#[test]
fn nodes_by_their_shapes(rt: HostRuntime) -> Result<(), Fail> {
    let shape = ('+', 1, 2);
    let mut nodes: Nodes = HeldSet::new(rt.alloc());
    for (node, back) in [
        (Node { shape, height: 3 }, 0),
        (Node { shape, height: 4 }, 4),
    ] {
        assert_same(&rt, insert(&mut nodes, rt.alloc(), node)?, back);
    }
    for other in [('-', 1, 2), ('+', 3, 2), ('+', 1, 3)] {
        assert!(rt; nodes.get_by_key(&other).is_none());
        let node = Node {
            shape: other,
            height: 5,
        };
        assert_same(&rt, insert(&mut nodes, rt.alloc(), node)?, 0);
    }
    assert!(rt; matches!(nodes.get_by_key(&shape), Some(node) if node.height == 3));
    assert_same(&rt, nodes.len() as u64, 4);
    Ok(())
}

/// Checks that a struct and a key both have the hash of the field.
#[test]
fn hashes_of_nodes(rt: HostRuntime) {
    let shape = ('+', 1, 2);
    let node = Node { shape, height: 3 };
    assert_same(&rt, NodeLaw::hash(&node), 0x31AB_5A47_BE9D_16EF);
    let of_key = <NodeLaw as KeyLaw<(char, u32, u64), Node>>::hash_key(&shape);
    assert_same(&rt, of_key, 0x31AB_5A47_BE9D_16EF);
    assert!(rt; NodeLaw::is_met(&shape, &node) && !NodeLaw::is_met(&('+', 1, 1), &node));
}

/// Makes a word in a box. `Err`: no memory.
fn boxed_word(alloc: Global, text: &str, line: u32) -> Result<Box<Word>, AllocError> {
    let text = String::from_str(alloc, text)?;
    Ok(Box::new(alloc, Word { text, line })?)
}

/// Checks that a look-up by a `&str` finds a struct with that text.
#[test]
fn words_by_their_texts(rt: HostRuntime) -> Result<(), Fail> {
    let mut words: HeldSet<Box<Word>, OfField<TextLaw>> = HeldSet::new(rt.alloc());
    for (text, line) in [("ab", 1), ("ba", 2), ("ab", 3)] {
        words.insert(boxed_word(rt.alloc(), text, line)?);
    }
    assert_same(&rt, words.len() as u64, 2);
    assert!(rt; matches!(words.get_by_key(&"ab"), Some(word) if word.line == 1));
    assert!(rt; matches!(words.get_by_key(&"ba"), Some(word) if word.line == 2));
    assert!(rt; words.get_by_key(&"bb").is_none());
    Ok(())
}

#[test]
fn parts(rt: HostRuntime) {
    type Law = OfParts<NumberLaw>;
    assert_same(&rt, Law::hash(&(3u64, 4u32)), 0xDA28_3A40_EC39_E188);
    assert_same(&rt, Law::hash(&(3u64, 4u32, 5u16)), 0x700D_FB40_D845_6938);
    assert!(rt; Law::is_same(&(3u64, 4u32), &(3u64, 4u32)));
    for other in [(2u64, 4u32), (3, 5)] {
        assert!(rt; !Law::is_same(&(3u64, 4u32), &other));
        assert!(rt; !Law::is_met(&(3u64, 4u32), &other));
    }
    assert!(rt; Law::is_same(&(3u64, 4u32, 'a'), &(3u64, 4u32, 'a')));
    for other in [(2u64, 4u32, 'a'), (3, 5, 'a'), (3, 4, 'b')] {
        assert!(rt; !Law::is_same(&(3u64, 4u32, 'a'), &other));
        assert!(rt; !Law::is_met(&(3u64, 4u32, 'a'), &other));
    }
}

#[test]
fn characters(rt: HostRuntime) {
    assert_same(&rt, NumberLaw::hash(&'a'), 0x43FF_CAC5_4361_E8F6);
    assert_same(
        &rt,
        <NumberLaw as KeyLaw<char, char>>::hash_key(&'a'),
        0x43FF_CAC5_4361_E8F6,
    );
    assert!(rt; NumberLaw::is_met(&'a', &'a') && !NumberLaw::is_met(&'a', &'b'));
    assert!(rt; NumberLaw::is_same(&'a', &'a') && !NumberLaw::is_same(&'a', &'b'));
}

/// A set of boxed pairs of a text and a number.
type Pairs = HeldSet<Box<(String, u32)>, PairsOf<TextLaw, NumberLaw>>;

/// Makes a set of the pairs of this text and these numbers. `Err`: no memory.
fn pairs_of(alloc: Global, text: &str, numbers: &[u32]) -> Result<Pairs, AllocError> {
    let mut set: Pairs = HeldSet::new(alloc);
    for number in numbers {
        let text = String::from_str(alloc, text)?;
        set.insert(Box::new(alloc, (text, *number))?);
    }
    Ok(set)
}

/// Returns the number of the pair that a look-up by this pair finds.
fn number_of(set: &Pairs, pair: (&str, u32)) -> Option<u32> {
    let found = set.get_by_key(&pair)?;
    Some(found.1)
}

/// Checks that a look-up by a `&str` and a number finds the pair of that text and number.
#[test]
fn pairs_by_keys(rt: HostRuntime) -> Result<(), Fail> {
    let set = pairs_of(rt.alloc(), "ab", &[7, 8])?;
    assert_same(&rt, number_of(&set, ("ab", 7)), Some(7));
    assert_same(&rt, number_of(&set, ("ab", 8)), Some(8));
    assert_same(&rt, number_of(&set, ("ab", 9)), None);
    assert_same(&rt, number_of(&set, ("ba", 7)), None);
    Ok(())
}
