//! The labels of a source with their addresses. Of two definitions of one label the first counts.
ghost use Rattle.std.specs.Prelude.{◌≡◌, [], ◌∷◌, ◌++◌, IfOk, slice_get};
ghost use Rattle.asm_grammar.specs.Encoding.{found};

use asm_grammar::{Definition, Label};
use std::alloc::Global;
use std::collections::HashMap;
use std::marker::Model;
use vm_facts::NoMemory;

// Definitions in the order of their lines. Contracts see the list of them.
#[derive(Drop)]
pub struct LabelTable {
    definitions: Vec<Definition>,
    // The place of the first definition of each label.
    places: HashMap<[u8; 16], usize>,
}

impl Model for LabelTable {
    ghost use Rattle.std.specs.Prelude.{List};
    ghost use Rattle.asm_grammar.specs.declared.syntax.Definition.{Definition as Defined};
    ghost use Rattle.vax_asm.specs.Places.{ArePlaces};

    ghost Value = { List Defined };

    ghost view = { λ table. table.definitions.items };

    ghost invariant = { λ table. ArePlaces table.definitions.items table.places };
}

fn definition_at(definitions: &[Definition], place: usize) -> Option<Definition>
    ensures { result ≡ slice_get definitions.now place }
{
    definitions.get(place).copied()
}

impl LabelTable {
    pub fn new(alloc: Global) -> LabelTable
        ensures { result ≡ [] }
    {
        LabelTable {
            definitions: Vec::new(alloc),
            places: HashMap::new(alloc),
        }
    }

    // With one more definition.
    pub fn with(self, definition: Definition) -> Result<LabelTable, NoMemory>
        ensures { IfOk result (λ table. table ≡ self ++ definition ∷ []) }
    {
        let LabelTable {
            mut definitions,
            mut places,
        } = self;
        let label = definition.label.bytes;
        if !places.contains_key(&label) {
            places.insert(label, definitions.as_slice().len())?;
        }
        definitions.push(definition)?;
        Ok(LabelTable {
            definitions,
            places,
        })
    }

    // The first definition of a label.
    pub fn find(&self, label: Label) -> Option<Definition>
        ensures { result ≡ found self.now label }
    {
        let place = *self.places.get(&label.bytes)?;
        definition_at(self.definitions.as_slice(), place)
    }
}

// The labels that values may name: those of a table, or none. Contracts see the list of their definitions.
#[derive(Drop)]
pub struct Labels {
    table: Option<LabelTable>,
}

impl Model for Labels {
    ghost use Rattle.std.specs.Prelude.{List};
    ghost use Rattle.asm_grammar.specs.declared.syntax.Definition.{Definition as Defined};
    ghost use Rattle.vax_asm.specs.Places.{defined_in};

    ghost Value = { List Defined };

    ghost view = { λ labels. defined_in labels.table };
}

impl Labels {
    // No labels, for which no memory is taken.
    pub fn none() -> Labels
        ensures { result ≡ [] }
    {
        Labels { table: None }
    }

    pub fn of(table: LabelTable) -> Labels
        ensures { result ≡ table }
    {
        Labels { table: Some(table) }
    }

    // The first definition of a label.
    #[tactic(auto, using(crate::proofs::Places::found_none))]
    pub fn find(&self, label: Label) -> Option<Definition>
        ensures { result ≡ found self.now label }
    {
        match &self.table {
            None => None,
            Some(table) => table.find(label),
        }
    }
}
