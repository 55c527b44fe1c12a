ghost use Rattle.std.specs.Prelude.{◌≡◌};
ghost use Rattle.std.specs.FinMap as map;
ghost use Rattle.server_tables.specs.Contents.{no_contents};

use crate::extent::append;
use crate::{Extent, LabelMap, Missing, TableFault, Tables};
use std::alloc::{AllocError, Global};
use std::marker::Model;

/// Tables over three maps from labels. All cells lie in one vector of bytes, and all blocks in another; nothing
/// that was put in is moved or copied again but where a vector grows.
#[derive(Drop)]
pub struct FlatTables<
    C: LabelMap<Value = Extent>,
    P: LabelMap<Value = [u8; 8]>,
    R: LabelMap<Value = ()>,
> {
    labels: C,
    cells: Vec<u8>,
    places: Vec<Extent>,
    blocks: Vec<u8>,
    additions: P,
    revoked: R,
}

impl<C: LabelMap<Value = Extent>, P: LabelMap<Value = [u8; 8]>, R: LabelMap<Value = ()>> Model
    for FlatTables<C, P, R> {
    ghost use Rattle.std.specs.Prelude.{◌-◌, vec_len, vec_capacity, length, map};
    ghost use Rattle.server_tables.specs.TablesView.{TablesView, view_code};

    ghost Value = { TablesView };

    ghost coded = { view_code };

    ghost use Rattle.server_tables.specs.Room.{pieces};
    ghost use Rattle.server_tables.specs.Places.{piece_at, map_values, label_set, ArePlaced};

    ghost view = { λ t. record {
      contents = record {
        dictionary = map_values (piece_at t.cells.items) (C.entries t.labels);
        array = map (piece_at t.blocks.items) t.places.items;
        additions = P.entries t.additions;
        revoked = label_set (R.entries t.revoked);
      };
      room = record {
        entries = record { calls = C.free t.labels; bytes = vec_capacity t.cells - vec_len t.cells };
        blocks = record { calls = vec_capacity t.places - vec_len t.places; bytes = vec_capacity t.blocks - vec_len t.blocks };
        additions = pieces (P.free t.additions) 8;
        revoked = pieces (R.free t.revoked) 16;
      };
    } };

    ghost invariant = { λ t. ArePlaced (length t.cells.items) (length t.blocks.items) (C.entries t.labels) t.places.items };
}

impl<C: LabelMap<Value = Extent>, P: LabelMap<Value = [u8; 8]>, R: LabelMap<Value = ()>> FlatTables<
    C,
    P,
    R,
> {
    /// Tables of nothing over three maps of nothing. Takes no memory.
    pub(crate) fn over(alloc: Global, labels: C, additions: P, revoked: R) -> Self
        requires no_labels { C.entries labels ≡ map.empty }
        requires no_additions { P.entries additions ≡ map.empty }
        requires none_revoked { R.entries revoked ≡ map.empty }
        ensures { result.contents ≡ no_contents }
    {
        FlatTables {
            labels,
            cells: Vec::new(alloc),
            places: Vec::new(alloc),
            blocks: Vec::new(alloc),
            additions,
            revoked,
        }
    }
}

impl<C: LabelMap<Value = Extent>, P: LabelMap<Value = [u8; 8]>, R: LabelMap<Value = ()>> Tables
    for FlatTables<C, P, R> {
    ghost contents = { λ t. t.contents };

    ghost room = { λ t. t.room };

    fn entry_len(&self) -> usize {
        self.labels.len()
    }

    fn entry(&self, label: &[u8; 16]) -> Option<&[u8]> {
        let place = self.labels.get(label)?;
        Some(&self.cells[place.start..place.end])
    }

    fn put_entry(&mut self, label: &[u8; 16], cell: &[u8]) -> Result<(), TableFault> {
        if self.entry(label).is_some() {
            return Err(TableFault::Taken);
        }
        self.labels.reserve(1)?;
        let place = append(&mut self.cells, cell)?;
        self.labels.insert(label, place).unwrap();
        Ok(())
    }

    fn block_len(&self) -> usize {
        self.places.len()
    }

    fn block(&self, place: u32) -> Option<&[u8]> {
        let place = self.places.get(place as usize)?;
        Some(&self.blocks[place.start..place.end])
    }

    fn push_block(&mut self, block: &[u8]) -> Result<(), AllocError> {
        self.places.reserve(1)?;
        let place = append(&mut self.blocks, block)?;
        self.places.push(place).unwrap();
        Ok(())
    }

    fn plus_len(&self) -> usize {
        self.additions.len()
    }

    fn plus(&self, label: &[u8; 16]) -> Option<[u8; 8]> {
        self.additions.get(label)
    }

    fn put_plus(&mut self, label: &[u8; 16], sealed: &[u8; 8]) -> Result<(), TableFault> {
        self.additions.insert(label, *sealed)
    }

    fn is_revoked(&self, number: &[u8; 16]) -> bool {
        self.revoked.get(number).is_some()
    }

    fn revokes_none(&self) -> bool {
        self.revoked.len() == 0
    }

    fn revoke(&mut self, number: &[u8; 16]) -> Result<(), TableFault> {
        self.revoked.insert(number, ())
    }

    fn restore(&mut self, number: &[u8; 16]) -> Result<(), Missing> {
        self.revoked.remove(number)
    }

    fn reserve(
        &mut self,
        entries: usize,
        cell: usize,
        blocks: usize,
        block: usize,
        plus: usize,
        revoked: usize,
    ) -> Result<(), AllocError> {
        self.labels.reserve(entries)?;
        let Some(cell_bytes) = entries.checked_mul(cell) else {
            return Err(AllocError {});
        };
        self.cells.reserve(cell_bytes)?;
        self.places.reserve(blocks)?;
        let Some(block_bytes) = blocks.checked_mul(block) else {
            return Err(AllocError {});
        };
        self.blocks.reserve(block_bytes)?;
        self.additions.reserve(plus)?;
        self.revoked.reserve(revoked)
    }

    fn clear(&mut self) {
        self.labels.clear();
        self.cells.clear();
        self.places.clear();
        self.blocks.clear();
        self.additions.clear();
        self.revoked.clear();
    }
}
