// How high the trees on a stack are, and whether they are targets.
ghost use Rattle.std.specs.Prelude.{◌≡◌, ◌&&◌, [], ◌∷◌, OnOk, IfOk, length, reverse};
ghost use Rattle.ll.specs.Shapes as spec;

use std::alloc::Global;
use std::marker::Model;
use ytt_base::text::Memory;

/// How high a tree is, and whether it is a target.
#[derive(Clone, Copy, PartialEq, Eq)]
pub struct Shape {
    pub high: u32,
    pub target: bool,
}

/// Whether a new tree is a target.
#[derive(Clone, Copy, PartialEq, Eq)]
pub enum Flag {
    Never,
    Always,
    /// Where each part is one.
    All,
}

/// What the end of an alternative, or a token, makes of the trees on the stack.
#[derive(Clone, Copy, PartialEq, Eq)]
pub enum Effect {
    Keep,
    /// A tree of this height.
    Push(u32, Flag),
    /// A tree whose parts are the last so many.
    Node(u32, Flag),
    /// The last so many, which stand beside each other in one tree.
    Beside(u32, Flag),
    /// The innermost tree, at least one level high.
    Floor,
}

fn both(a: bool, b: bool) -> bool
    ensures { result ≡ (a && b) }
{
    a && b
}

/// A shape of this height, whose parts are targets or not.
fn flagged(high: u32, flag: Flag, parts: bool) -> Shape
    ensures { result ≡ spec.shape high (spec.flagged flag parts) }
{
    let target = match flag {
        Flag::Never => false,
        Flag::Always => true,
        Flag::All => parts,
    };
    Shape { high, target }
}

/// The height of the highest of shapes, the innermost last.
fn highest_in(shapes: &[Shape]) -> u32
    ensures { result ≡ spec.highest (length shapes.now) (reverse shapes.now) }
{
    let mut high = 0;
    let mut left = shapes.len();
    while left > 0 {
        left -= 1;
        high = high.max(shapes[left].high);
    }
    high
}

/// Shapes, seen as their list, the innermost first.
#[derive(Drop)]
pub struct Shapes {
    shapes: Vec<Shape>,
}

impl Model for Shapes {
    ghost use Rattle.std.specs.Prelude.{List, reverse};
    ghost use Rattle.ll.specs.declared.shapes.Shape.{Shape};

    ghost Value = { List Shape };

    ghost view = { λ s. reverse s.shapes.items };
}

impl Shapes {
    /// No shape. It takes no memory.
    pub fn new(alloc: Global) -> Shapes
        ensures { result ≡ [] }
    {
        Shapes {
            shapes: Vec::new(alloc),
        }
    }

    pub fn copy(&self, alloc: Global) -> Result<Shapes, Memory>
        ensures { IfOk result (λ s. s ≡ self.now) }
    {
        Ok(Shapes {
            shapes: Vec::from_slice(alloc, &self.shapes)?,
        })
    }

    /// Makes room for so many more.
    pub fn reserve(&mut self, more: usize) -> Result<(), Memory>
        ensures { OnOk result (self.new ≡ self.old) }
    {
        self.shapes.reserve(more)?;
        Ok(())
    }

    pub fn push(&mut self, shape: Shape) -> Result<(), Memory>
        ensures { OnOk result (self.new ≡ shape ∷ self.old) }
    {
        self.shapes.push(shape)?;
        Ok(())
    }

    /// Takes the innermost shape: height 0, where there is none.
    pub fn pop(&mut self) -> Shape
        ensures value { result ≡ spec.top self.old }
        ensures rest { self.new ≡ spec.under self.old }
    {
        match self.shapes.pop() {
            Some(shape) => shape,
            None => Shape {
                high: 0,
                target: false,
            },
        }
    }

    /// The innermost shape.
    pub fn top(&self) -> Shape
        ensures { result ≡ spec.top self.now }
    {
        match self.shapes.last() {
            Some(shape) => *shape,
            None => Shape {
                high: 0,
                target: false,
            },
        }
    }

    /// The height of the highest.
    pub fn highest(&self) -> u32
        ensures { result ≡ spec.highest (length self.now) self.now }
    {
        highest_in(self.shapes.as_slice())
    }

    /// Takes so many. It gives the height of the highest, and whether each is a target.
    fn take(&mut self, count: u32) -> Shape
        ensures value { result ≡ spec.shape (spec.highest count self.old) (spec.all_targets count self.old) }
        ensures rest { self.new ≡ spec.past count self.old }
    {
        let mut high = 0;
        let mut target = true;
        let mut left = count;
        while left > 0 {
            let shape = self.pop();
            high = high.max(shape.high);
            target = both(target, shape.target);
            left -= 1;
        }
        Shape { high, target }
    }

    /// What an effect makes of the trees. Its only error is want of memory.
    pub fn apply(&mut self, effect: Effect) -> Result<(), Memory>
        ensures { OnOk result (self.new ≡ spec.apply effect self.old) }
    {
        match effect {
            Effect::Keep => Ok(()),
            Effect::Push(high, flag) => self.push(flagged(high, flag, true)),
            Effect::Node(count, flag) => {
                let parts = self.take(count);
                self.push(flagged(parts.high.saturating_add(1), flag, parts.target))
            }
            Effect::Beside(count, flag) => {
                let parts = self.take(count);
                self.push(flagged(parts.high, flag, parts.target))
            }
            Effect::Floor => {
                let part = self.pop();
                self.push(Shape {
                    high: part.high.max(1),
                    target: part.target,
                })
            }
        }
    }
}
