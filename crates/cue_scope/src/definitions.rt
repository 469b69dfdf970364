ghost use Rattle.std.specs.Prelude.{◌≡◌, ◌⊎◌, ◌++◌, ◌∷◌, [], ℕ, List, IfOk, IfErr, OnOk, IsSome};
ghost use Rattle.std.specs.Prelude.{None};
ghost use Rattle.std.specs.HashMap as hash;
ghost use Rattle.std.specs.Str.{bytes_eq};
ghost use Rattle.std.specs.Map.{update};
ghost use Rattle.cue_lattice.specs.Refusal.{memory, refusal_at};
ghost use Rattle.cue_syntax.specs.Syntax.{entries};
ghost use Rattle.cue_scope.specs.Definitions.{definitions, number_of_name, repeated_names, IsRepeat};
ghost use Rattle.cue_scope.specs.Listed.{definition_list, definition_of};

use crate::memory::push;
use cue_lattice::{Kind, Memory, Refusal};
use cue_syntax::{Declaration, Expr, Label};
use std::alloc::Global;
use std::collections::HashMap;

/// `#Name: label: value`: a definition of a text.
#[derive(Debug, Drop)]
pub struct Definition<'f, 't> {
    /// The name with its `#`.
    pub name: &'f str,
    /// Where the name begins, in bytes.
    pub from: usize,
    /// The chain of labels before the value, which may be empty.
    pub chain: &'f [Label<'t>],
    pub value: &'f Expr<'t>,
}

/// The definitions of a text, numbered from 0 in its order, each with a name of its own.
#[derive(Drop)]
pub struct Definitions<'f, 't> {
    list: Vec<Definition<'f, 't>>,
    numbers: HashMap<&'f str, usize>,
    ghost numbered: { (name : List ℕ) → hash.get_by (λ k. bytes_eq name k.now) numbers
        ≡ number_of_name name (definition_list list.items) },
}

impl<'f, 't> Definitions<'f, 't> {
    ghost use Rattle.cue_scope.specs.Kept.{nodes_kept};

    /// The definitions among the declarations of a text.
    ///
    /// # Errors
    ///
    /// `Repeated` at the first definition whose name an earlier one has, and `Memory`.
    pub fn of(
        alloc: Global,
        declarations: &'f [Declaration<'t>],
    ) -> Result<Definitions<'f, 't>, Refusal>
        ensures all { IfOk result (λ r. nodes_kept r ≡ definitions (entries declarations.now)) }
        ensures unrepeated { OnOk result (repeated_names (definitions (entries declarations.now)) ≡ []) }
        ensures refused { IfErr result (λ r. (r ≡ memory)
            ⊎ IsRepeat (definitions (entries declarations.now)) r) }
    {
        let mut list = Vec::new(alloc);
        let mut numbers = HashMap::new(alloc);
        for declaration in declarations {
            match declaration {
                Declaration::Definition {
                    name,
                    from,
                    chain,
                    value,
                } => {
                    let definition = Definition {
                        name: name.as_str(),
                        from: *from,
                        chain,
                        value,
                    };
                    add(&mut list, &mut numbers, definition)?;
                }
                Declaration::Field { .. } => {}
                Declaration::Ellipsis => {}
            }
        }
        Ok(Definitions { list, numbers })
    }

    /// The number of the definition of this name, if there is one.
    pub fn number(&self, name: &str) -> Option<usize>
        ensures { result ≡ number_of_name name.now (nodes_kept self.now) }
    {
        self.numbers.get(name).copied()
    }

    /// All of them, in order.
    pub fn all(&self) -> &[Definition<'f, 't>]
        ensures { definition_list result.now ≡ nodes_kept self.now }
    {
        &self.list
    }
}

/// Puts a definition after the others.
fn add<'f, 't>(
    list: &mut Vec<Definition<'f, 't>>,
    numbers: &mut HashMap<&'f str, usize>,
    definition: Definition<'f, 't>,
) -> Result<(), Refusal>
    requires { (name : List ℕ) → hash.get_by (λ k. bytes_eq name k.now) numbers.old
        ≡ number_of_name name (definition_list list.old.items) }
    ensures added { OnOk result (definition_list list.new.items
        ≡ definition_list list.old.items ++ definition_of definition.entry ∷ []) }
    ensures numbered { OnOk result ((name : List ℕ) →
        hash.get_by (λ k. bytes_eq name k.now) numbers.new
        ≡ number_of_name name (definition_list list.new.items)) }
    ensures unknown { OnOk result (number_of_name definition.entry.name.now (definition_list list.old.items)
        ≡ None) }
    ensures refused { IfErr result (λ r. (r ≡ memory)
        ⊎ (IsSome (number_of_name definition.entry.name.now (definition_list list.old.items))
        × (r ≡ refusal_at Kind.Repeated definition.entry.from))) }
{
    if numbers.contains_key(definition.name) {
        return Err(Refusal::at(Kind::Repeated, definition.from));
    }
    put(numbers, definition.name, list.len())?;
    push(list, definition)?;
    Ok(())
}

/// Gives a name its number.
fn put<'f>(
    numbers: &mut HashMap<&'f str, usize>,
    name: &'f str,
    number: usize,
) -> Result<(), Refusal>
    ensures put { OnOk result ((other : List ℕ) →
        hash.get_by (λ k. bytes_eq other k.now) numbers.new
        ≡ update bytes_eq (λ t. hash.get_by (λ k. bytes_eq t k.now) numbers.old) name.now
        (Some number) other) }
    ensures memory { IfErr result (λ r. r ≡ memory) }
{
    match numbers.insert(name, number) {
        Ok(_) => Ok(()),
        Err(failed) => Err(Refusal::from(Memory::from(failed))),
    }
}
