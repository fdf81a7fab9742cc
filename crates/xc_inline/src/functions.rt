ghost use Rattle.std.specs.Prelude.{◌≡◌, ◌<◌, ◌≤◌, ◌^◌, [], ◌∷◌, ◌++◌, length, IfOk, OnOk, option_map};
ghost use Rattle.std.specs.List.{All};
ghost use Rattle.std.specs.Option.{IfSome};
ghost use Rattle.xc_tree.specs.Trees.{program_of, item_of, statement_of};
ghost use Rattle.xc_kernel.specs.Programs as spec;
ghost use Rattle.xc_inline.specs.Functions.{HasFewParameters, function_of, functions_among, deepest};
ghost use Rattle.xc_tree.specs.Heights.{height};

use std::alloc::Global;
use xc_tree::{FuncItem, Item, Tree};
use xw_words::Memory;

/// The name of the function that is run.
const MAIN: &[u8] = b"main";

/// The functions of a program, in the order of the text.
#[derive(Drop)]
pub struct Functions<'a> {
    all: Vec<&'a FuncItem>,
    ghost few_parameters: { All HasFewParameters (functions_among all.items) },
}

impl<'a> Functions<'a> {
    #[tactic(auto, using(crate::proofs::Laws::Functions::functions_step))]
    /// Those of a tree. The one error is want of memory.
    pub fn of_tree(alloc: Global, tree: &'a Tree) -> Result<Functions<'a>, Memory>
        requires parameters { All HasFewParameters (spec.functions (program_of tree.now)) }
        ensures { IfOk result (λ functions.
            functions_among functions.all.items ≡ spec.functions (program_of tree.now)) }
    {
        let mut all = Vec::new(alloc);
        for item in tree.items.as_slice() {
            add_function(&mut all, item)?;
        }
        Ok(Functions { all })
    }

    /// How many there are.
    pub fn len(&self) -> usize
        ensures { result ≡ length (functions_among self.now.all.items) }
    {
        self.all.len()
    }

    /// The function that is run, if it is there.
    pub fn main(&self) -> Option<&'a FuncItem>
        ensures function { option_map (λ f. function_of f.now) result
            ≡ spec.function_named (functions_among self.now.all.items) spec.name_of_main }
        ensures depth { IfSome result
            (λ f. height (statement_of f.now.body) ≤ deepest self.now.all.items) }
        ensures parameters { IfSome result (λ f. length f.now.params < 2 ^ 32) }
    {
        self.named(MAIN)
    }

    #[tactic(auto, using(crate::proofs::Laws::Functions::named_step, crate::proofs::Laws::Functions::deepest_step))]
    /// The first function of a name, if there is one.
    pub fn named(&self, name: &[u8]) -> Option<&'a FuncItem>
        ensures function { option_map (λ f. function_of f.now) result
            ≡ spec.function_named (functions_among self.now.all.items) name.now }
        ensures depth { IfSome result
            (λ f. height (statement_of f.now.body) ≤ deepest self.now.all.items) }
        ensures parameters { IfSome result (λ f. length f.now.params < 2 ^ 32) }
    {
        for function in &self.all {
            if function.name.text.as_slice() == name {
                return Some(function);
            }
        }
        None
    }
}

/// Adds the function that an item is, if it is one.
fn add_function<'a>(all: &mut Vec<&'a FuncItem>, item: &'a Item) -> Result<(), Memory>
    ensures { OnOk result (functions_among all.new.items
        ≡ functions_among all.old.items ++ spec.functions (item_of item.now ∷ [])) }
{
    match item {
        Item::Port(_) => Ok(()),
        Item::Func(function) => match all.push(function) {
            Ok(()) => Ok(()),
            Err(_) => Err(Memory),
        },
    }
}
