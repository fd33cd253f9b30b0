//! Names and nodes of a compiler. Two threads build an expression each: equal names have one symbol, and equal nodes are one node.
#![tactic(auto)]

ghost use Rattle.std.specs.Prelude.{◌≡◌};

use shared_interner::{Names, SharedInterner};
use shared_set::{Handle, SharedSet};
use std::alloc::{AllocError, Global};
use std::{io, thread};
use table_sets::{ByField, NumberLaw, OfField, OfParts};

/// An operator with the numbers of its operands, or 'n' with the symbol of a name and 0.
type Shape = (char, u64, u64);

/// A shape, and the expression as a text.
#[derive(Drop)]
struct Node {
    shape: Shape,
    text: String,
}

impl ByField for Node {
    type Field = Shape;

    ghost field_of = { λ node. node.shape };

    fn field(&self) -> &Shape {
        &self.shape
    }
}

/// The law of nodes: two are equal if their shapes are.
type ByShape = OfField<OfParts<NumberLaw>>;

/// A node with its number.
type Numbered<'a> = (u64, &'a Node);

/// What one thread builds nodes by.
#[derive(Drop)]
struct Builder<'a> {
    names: Names<'a>,
    nodes: Handle<'a, Node, ByShape>,
    alloc: Global,
}

impl<'a> Builder<'a> {
    /// Makes a builder for a thread.
    fn new(names: &'a SharedInterner, nodes: &'a SharedSet<Node, ByShape>, alloc: Global) -> Self {
        Builder {
            names: names.names(),
            nodes: nodes.handle(),
            alloc,
        }
    }

    /// Returns the node of this shape. If there is none yet, a node with this text becomes it.
    fn node(&mut self, shape: Shape, text: String) -> Result<Numbered<'a>, AllocError> {
        let got = self
            .nodes
            .get_or_insert_with(&shape, || Node { shape, text });
        match got.into_entry() {
            Ok(numbered) => Ok(numbered),
            Err(_) => Err(AllocError),
        }
    }

    /// Returns the node of a name.
    fn name(&mut self, name: &str) -> Result<Numbered<'a>, AllocError> {
        let symbol = self.names.intern(name)?;
        let text = String::from_str(self.alloc, name)?;
        self.node(('n', u64::from(symbol.to_u32()), 0), text)
    }

    /// Returns the node of two nodes and the operator between them.
    fn join(
        &mut self,
        left: Numbered<'a>,
        operator: char,
        right: Numbered<'a>,
    ) -> Result<Numbered<'a>, AllocError> {
        let text = format!(in self.alloc; "({} {operator} {})", left.1.text, right.1.text)?;
        self.node((operator, left.0, right.0), text)
    }

    /// Builds `price * count`, and an expression of that and a name. Returns the numbers of both nodes.
    fn build(&mut self, operator: char, name: &str) -> Result<(u64, u64), AllocError> {
        let (price, count) = (self.name("price")?, self.name("count")?);
        let product = self.join(price, '*', count)?;
        let last = self.name(name)?;
        let whole = self.join(product, operator, last)?;
        Ok((product.0, whole.0))
    }
}

fn main(rt: HostRuntime) -> io::Result<()> {
    let alloc = rt.alloc();
    let names = SharedInterner::new(alloc)?;
    let nodes: SharedSet<Node, ByShape> = SharedSet::new(alloc)?;
    let (here, there) = thread::join(
        &rt,
        || Builder::new(&names, &nodes, alloc).build('+', "tax"),
        || Builder::new(&names, &nodes, alloc).build('-', "paid"),
    );
    let (here, there) = (here?, there?);
    println!(rt; "{} names, {} nodes", names.len(), nodes.len())?;
    println!(rt; "both threads have one product: {}", here.0 == there.0)?;
    let mut shown = nodes.handle();
    for number in [here.1, there.1] {
        if let Some(node) = shown.entry(number) {
            println!(rt; "{}", node.text)?;
        }
    }
    Ok(())
}
