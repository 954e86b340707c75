//! Lists the names that a line uses.

ghost use Rattle.std.specs.Prelude.{◌≡◌, ◌++◌, IfOk, OnOk, map, option_copied};
ghost use Rattle.std.specs.List.{flat_map};
ghost use Rattle.std.specs.Option.{option_map, option_to_list};
ghost use Rattle.asm_parse.specs.Source.{source_item};
ghost use Rattle.asm_spell.specs.Line.{body_of, line_of, listed_names, value_of};
ghost use Rattle.asm_names.specs.Circles.{name_in, names_in};
ghost use Rattle.asm_module.specs.Module.Faults.{passed_on, used, value_names};
ghost use Rattle.source_errors.specs.Judged.{line_passes, line_used};

use asm_expr::{Item, Term, TermView, Tree};
use asm_spell::{Body, KeptName, Line, Value};
use std::alloc::{AllocError, Global};
use z80_form::Field;

/// Appends the name in an item of an expression, if it is one.
fn put_item<'a>(item: &'a Item<Term>, all: &mut Vec<&'a [u8]>) -> Result<(), AllocError>
    ensures { OnOk result (map (λ name. name.now) all.new.items ≡ map (λ name. name.now) all.old.items ++ option_to_list (name_in (source_item item.now))) }
{
    match item.view() {
        Item::Leaf(TermView::Name(name)) => Ok(all.push(name)?),
        _ => Ok(()),
    }
}

/// Appends the names in items of an expression.
fn put_items<'a>(items: &'a [Item<Term>], all: &mut Vec<&'a [u8]>) -> Result<(), AllocError>
    ensures { OnOk result (map (λ name. name.now) all.new.items ≡ map (λ name. name.now) all.old.items ++ names_in (map source_item items.now)) }
{
    for item in items {
        put_item(item, all)?;
    }
    Ok(())
}

/// Appends the names in an expression.
fn put_tree<'a>(tree: &'a Tree, all: &mut Vec<&'a [u8]>) -> Result<(), AllocError>
    ensures { OnOk result (map (λ name. name.now) all.new.items ≡ map (λ name. name.now) all.old.items ++ names_in tree.now) }
{
    put_items(tree.items(), all)
}

fn put_numbers<'a>(numbers: &'a [(Field, Tree)], all: &mut Vec<&'a [u8]>) -> Result<(), AllocError>
    ensures { OnOk result (map (λ name. name.now) all.new.items ≡ map (λ name. name.now) all.old.items ++ flat_map (λ n. names_in n.1) numbers.now) }
{
    for number in numbers {
        put_tree(&number.1, all)?;
    }
    Ok(())
}

fn put_value<'a>(value: &'a Value, all: &mut Vec<&'a [u8]>) -> Result<(), AllocError>
    ensures { OnOk result (map (λ name. name.now) all.new.items ≡ map (λ name. name.now) all.old.items ++ value_names (value_of value.now)) }
{
    match value {
        Value::Text(_) => Ok(()),
        Value::Byte(tree) => put_tree(tree, all),
    }
}

fn put_values<'a>(values: &'a [Value], all: &mut Vec<&'a [u8]>) -> Result<(), AllocError>
    ensures { OnOk result (map (λ name. name.now) all.new.items ≡ map (λ name. name.now) all.old.items ++ flat_map (λ v. value_names (value_of v)) values.now) }
{
    for value in values {
        put_value(value, all)?;
    }
    Ok(())
}

fn put_trees<'a>(trees: &'a [Tree], all: &mut Vec<&'a [u8]>) -> Result<(), AllocError>
    ensures { OnOk result (map (λ name. name.now) all.new.items ≡ map (λ name. name.now) all.old.items ++ flat_map names_in trees.now) }
{
    for tree in trees {
        put_tree(tree, all)?;
    }
    Ok(())
}

fn put_names<'a>(names: &'a [KeptName], all: &mut Vec<&'a [u8]>) -> Result<(), AllocError>
    ensures { OnOk result (map (λ name. name.now) all.new.items ≡ map (λ name. name.now) all.old.items ++ listed_names names.now) }
{
    for name in names {
        all.push(name)?;
    }
    Ok(())
}

/// Appends the names in the size of a DS, and in the byte that fills it.
fn put_space<'a>(
    size: &'a Tree,
    fill: Option<&'a Tree>,
    all: &mut Vec<&'a [u8]>,
) -> Result<(), AllocError>
    ensures { OnOk result (map (λ name. name.now) all.new.items ≡ map (λ name. name.now) all.old.items ++ names_in size.now ++ flat_map names_in (option_to_list (option_copied fill.entry))) }
{
    put_tree(size, all)?;
    match fill {
        Some(tree) => put_tree(tree, all),
        None => Ok(()),
    }
}

/// Appends the names that a statement uses.
fn put_body<'a>(body: &'a Body, all: &mut Vec<&'a [u8]>) -> Result<(), AllocError>
    ensures { OnOk result (map (λ name. name.now) all.new.items ≡ map (λ name. name.now) all.old.items ++ used (body_of body.now)) }
{
    match body {
        Body::Code { instr: _, numbers } => put_numbers(numbers.as_slice(), all),
        Body::Jump {
            condition: _,
            target,
        } => Ok(all.push(target)?),
        Body::Short { branch: _, target } => Ok(all.push(target)?),
        Body::Bytes(values) => put_values(values, all),
        Body::Words(fields) => put_trees(fields, all),
        Body::Space { size, fill } => put_space(size, fill.as_ref(), all),
        Body::Public(names) => put_names(names, all),
        Body::Origin(tree) => put_tree(tree, all),
        Body::End(Some(entry)) => Ok(all.push(entry)?),
        Body::End(None) | Body::External(_) | Body::Z80 => Ok(()),
    }
}

/// Answers the names that a line uses, from left to right.
pub(crate) fn names_used<'a>(alloc: Global, line: &'a Line) -> Result<Vec<&'a [u8]>, AllocError>
    ensures { IfOk result (λ all. map (λ name. name.now) all.items ≡ line_used (line_of line.now)) }
{
    let mut all = Vec::new(alloc);
    match line {
        Line::Equ { value, .. } => put_tree(value, &mut all)?,
        Line::Statement {
            body: Some(body),
            ..
        } => put_body(body, &mut all)?,
        Line::Statement { body: None, .. } => (),
    }
    Ok(all)
}

/// Answers the names that a line passes on, which have to be labels.
pub(crate) fn names_passed<'a>(alloc: Global, line: &'a Line) -> Result<Vec<&'a [u8]>, AllocError>
    ensures { IfOk result (λ all. map (λ name. name.now) all.items ≡ line_passes (line_of line.now)) }
{
    let mut all = Vec::new(alloc);
    if let Line::Statement {
        body: Some(body),
        ..
    } = line
    {
        match body {
            Body::Public(names) => put_names(names, &mut all)?,
            Body::End(Some(entry)) => all.push(entry)?,
            _ => (),
        }
    }
    Ok(all)
}
