use super::statements::{put_place, put_statement};
use super::{put_name, put_pos, type_word};
use crate::shown::page::Page;
use xc_tree::{FuncItem, Id, Item, Param, ParamKind, PortItem, Tree, TreeDir};

pub fn put_id(page: &mut Page, before: &str, id: &Id) {
    put_name(page, before, id.text.as_slice(), id.pos);
}

fn dir_word(dir: TreeDir) -> &'static str {
    match dir {
        TreeDir::In => "in port",
        TreeDir::Out => "out port",
        TreeDir::Both => "port",
    }
}

fn put_param(page: &mut Page, param: &Param) {
    page.put(" ");
    match &param.kind {
        ParamKind::Value(is_unsigned) => page.put(type_word(*is_unsigned)),
        ParamKind::Ref(is_unsigned) => {
            page.put(if *is_unsigned { "unsigned &" } else { "int &" });
        }
        ParamKind::Array(is_unsigned, length) => {
            page.put(type_word(*is_unsigned));
            page.put("[");
            if let Some((n, pos)) = length {
                page.number(*n);
                put_pos(page, ":", *pos);
            }
            page.put("]");
        }
        ParamKind::End(true) => page.put("streaming"),
        ParamKind::End(false) => page.put("chanend"),
        ParamKind::Port(dir) => page.put(dir_word(*dir)),
    }
    put_id(page, " ", &param.name);
}

fn put_port(page: &mut Page, port: &PortItem) {
    put_place(page, &port.place);
    page.put(dir_word(port.dir));
    put_id(page, " ", &port.name);
    put_id(page, " = ", &port.ident);
}

/// A function as `result name:place/own parameters block`.
fn put_function(page: &mut Page, function: &FuncItem) {
    page.put(match function.result {
        None => "void",
        Some(is_unsigned) => type_word(is_unsigned),
    });
    put_id(page, " ", &function.name);
    page.numbered("/", function.own);
    for param in function.params.as_slice() {
        put_param(page, param);
    }
    put_statement(page, " ", &function.body);
}

/// Puts the items of a tree, parted by `; `.
pub fn put_tree(page: &mut Page, tree: &Tree) {
    for item in tree.items.as_slice() {
        if !page.is_empty() {
            page.put("; ");
        }
        match item {
            Item::Port(port) => put_port(page, port),
            Item::Func(function) => put_function(page, function),
        }
    }
}
