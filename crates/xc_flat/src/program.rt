ghost use Rattle.std.specs.Prelude.{◌≡◌, ◌<◌, ◌≤◌, ◌^◌, [], ◌∷◌, ◌++◌, length, IfOk, OnOk, map, option_map};
ghost use Rattle.std.specs.List.{All};
ghost use Rattle.xc_tree.specs.Trees.{program_of, item_of, port_of};
ghost use Rattle.xc_kernel.specs.Copies.{Copies};
ghost use Rattle.xc_kernel.specs.Counts.{statements_of};
ghost use Rattle.xc_kernel.specs.Numbering.{no_numbering};
ghost use Rattle.xc_kernel.specs.Size.{most_statements};
ghost use Rattle.xw_words.specs.Tables.{place_in};
ghost use Rattle.xw_words.specs.Ports.{identifiers};
ghost use Rattle.xc_kernel.specs.Kernels.{kernel_of, root_of};
ghost use Rattle.xc_kernel.specs.Ports as ports_spec;
ghost use Rattle.xc_kernel.specs.Programs as programs;
ghost use Rattle.xc_inline.specs.Contexts.{functions_of, ports_from};
ghost use Rattle.xc_inline.specs.Functions.{HasFewParameters, function_of};
ghost use Rattle.xc_inline.specs.Instances.{instance_count};
ghost use Rattle.xc_inline.specs.Numbers.{numbering_of};
ghost use Rattle.xc_flat.specs.Ports.{names_among, names_of_ports};
ghost use Rattle.xc_inline.specs.Roots.{numbering_by, rooted_by, rooted_of};

use std::alloc::Global;
use xc_inline::{Functions, Numbers, Rooted, core_outside, pos_of_place, roots_by_numbers};
use xc_kernel::{Kernel, PortUse};
use xc_tree::{FuncItem, Item, PortItem, Tree};
use xw_words::allocation::{with_ok, zip_ok};
use xw_words::{List, Memory, PORT_COUNT, Pos, identifier_place};

/// The kernel of a program: the program with each call replaced by its function's body over instances of its own. The tree is
/// walked twice, for the instances and then for the statements, which mean instances by their places. The one error is want of
/// memory.
pub fn copy(alloc: Global, tree: &Tree) -> Result<Kernel, Memory>
    requires small { statements_of (program_of tree.now) ≤ most_statements }
    requires ports { length (programs.ports (program_of tree.now)) < 2 ^ 32 }
    requires parameters { All HasFewParameters (programs.functions (program_of tree.now)) }
    ensures { IfOk result (λ k. Copies (program_of tree.now) (kernel_of k)) }
{
    let functions = Functions::of_tree(alloc, tree);
    let names = port_names(alloc, tree);
    let (functions, names) = zip_ok(functions, names)?;
    let walked = walked(alloc, &functions, names.as_slice());
    drop(names);
    let main = main_pos(functions.main());
    drop(functions);
    let ports = port_uses(alloc, tree);
    let ((numbers, rooted), ports) = zip_ok(walked, ports)?;
    Ok(kernel_by(numbers, rooted, ports, main))
}

/// The numbering of a program's instances, and its roots by this numbering. The one error is as for `copy`.
fn walked<'a>(
    alloc: Global,
    functions: &Functions<'a>,
    ports: &[&'a [u8]],
) -> Result<(Numbers, Rooted), Memory>
    requires ports { length ports.now < 2 ^ 32 }
    requires few { instance_count (rooted_by (functions_of functions.now)
        (ports_from 0 ports.now) no_numbering).made < 2 ^ 32 }
    ensures numbers { IfOk result (λ r. numbering_of r.0
        ≡ numbering_by (functions_of functions.now) (ports_from 0 ports.now)) }
    ensures roots { IfOk result
        (λ r. rooted_of r.1 (rooted_by (functions_of functions.now) (ports_from 0 ports.now)
        (numbering_by (functions_of functions.now) (ports_from 0 ports.now))).made.scope
        ≡ rooted_by (functions_of functions.now) (ports_from 0 ports.now)
        (numbering_by (functions_of functions.now) (ports_from 0 ports.now))) }
{
    let numbers = numbered(alloc, functions, ports)?;
    let rooted = roots_by_numbers(alloc, functions, ports, &numbers);
    with_ok(numbers, rooted)
}

/// The numbering of a program's instances, which a walk without one finds. The one error is as for `copy`.
fn numbered<'a>(
    alloc: Global,
    functions: &Functions<'a>,
    ports: &[&'a [u8]],
) -> Result<Numbers, Memory>
    requires ports { length ports.now < 2 ^ 32 }
    requires few { instance_count (rooted_by (functions_of functions.now)
        (ports_from 0 ports.now) no_numbering).made < 2 ^ 32 }
    ensures { IfOk result (λ numbers. numbering_of numbers
        ≡ numbering_by (functions_of functions.now) (ports_from 0 ports.now)) }
{
    let none = Numbers::none(alloc);
    let walked = roots_by_numbers(alloc, functions, ports, &none);
    drop(none);
    let first = walked?;
    drop(first.roots);
    let numbers = Numbers::of_copy(alloc, first.made)?;
    Ok(numbers)
}

/// The kernel by its numbers, its roots and their instances, its ports, and the place of main's name.
fn kernel_by(numbers: Numbers, rooted: Rooted, ports: List<PortUse>, main: Pos) -> Kernel
    ensures { kernel_of result
        ≡ record {
          roots = map root_of rooted.roots;
          variables = numbers.variables.items;
          channels = numbers.channels.items;
          timers = numbers.timers.items;
          ports = ports;
          instances = rooted.made.instances.items;
          main = main;
        } }
{
    let (vars, chans, timers) = numbers.into_lists();
    let Rooted { made, roots } = rooted;
    let insts = made.into_instances();
    Kernel {
        roots,
        vars,
        chans,
        timers,
        ports,
        insts,
        main,
    }
}

/// The place of main's name.
fn main_pos(main: Option<&FuncItem>) -> Pos
    ensures { result ≡ programs.pos_of_function (option_map (λ f. function_of f.now) main.entry) }
{
    match main {
        Some(main) => main.name.pos,
        None => Pos { line: 1, col: 1 },
    }
}

/// The names of ports, in the order of the text. The one error is want of memory.
fn port_names<'a>(alloc: Global, tree: &'a Tree) -> Result<Vec<&'a [u8]>, Memory>
    ensures { IfOk result (λ names. names_among names.items
        ≡ names_of_ports (programs.ports (program_of tree.now))) }
{
    let mut names = Vec::new(alloc);
    for item in tree.items.as_slice() {
        match add_port_name(&mut names, item) {
            Ok(()) => {}
            Err(memory) => {
                drop(names);
                return Err(memory);
            }
        }
    }
    Ok(names)
}

/// Adds the name of the port that an item is, if it is one. The one error is want of memory.
fn add_port_name<'a>(names: &mut Vec<&'a [u8]>, item: &'a Item) -> Result<(), Memory>
    ensures { OnOk result
        (names_among names.new.items ≡ names_among names.old.items ++ names_of_ports
        (programs.ports (item_of item.now ∷ []))) }
{
    match item {
        Item::Func(_) => Ok(()),
        Item::Port(port) => match names.push(port.name.text.as_slice()) {
            Ok(()) => Ok(()),
            Err(_) => Err(Memory),
        },
    }
}

/// The kernel's entries for ports, in the order of the text. The one error is want of memory.
fn port_uses(alloc: Global, tree: &Tree) -> Result<List<PortUse>, Memory>
    ensures { IfOk result
        (λ ports. ports ≡ map ports_spec.port_use (programs.ports (program_of tree.now))) }
{
    let mut ports = List::new(alloc);
    for item in tree.items.as_slice() {
        match add_port_use(alloc, &mut ports, item) {
            Ok(()) => {}
            Err(memory) => {
                drop(ports);
                return Err(memory);
            }
        }
    }
    Ok(ports)
}

/// Adds the kernel's entry for the port that an item is, if it is one. The one error is want of memory.
fn add_port_use(alloc: Global, ports: &mut List<PortUse>, item: &Item) -> Result<(), Memory>
    ensures { OnOk result (ports.new
        ≡ ports.old ++ map ports_spec.port_use (programs.ports (item_of item.now ∷ []))) }
{
    match item {
        Item::Func(_) => Ok(()),
        Item::Port(port) => {
            let entry = port_use(alloc, port)?;
            ports.push(entry)?;
            Ok(())
        }
    }
}

/// The kernel's entry for a port. The one error is want of memory.
fn port_use(alloc: Global, port: &PortItem) -> Result<PortUse, Memory>
    ensures { IfOk result (λ entry. entry ≡ ports_spec.port_use (port_of port.now)) }
{
    let core = core_outside(alloc, &port.place)?;
    Ok(PortUse {
        id: port_of(port.ident.text.as_slice()),
        dir: port.dir,
        core,
        place: pos_of_place(port.name.pos, &port.place),
        pos: port.name.pos,
    })
}

/// The port of an identifier, or the number of ports.
fn port_of(identifier: &[u8]) -> u8
    ensures { result ≡ ports_spec.port_at (place_in identifiers identifier.now) }
{
    match identifier_place(identifier) {
        Some(port) => port,
        None => PORT_COUNT,
    }
}
