//! The blocks at which a resource is always free, and those that are never reached.
ghost use Rattle.std.specs.{Prelude.{◌≡◌, IfSome, IfNone}};
ghost use Rattle.osek_values.specs.declared.numbers.ResNo.{ResNo};
ghost use Rattle.osek_standard.specs.declared.block.Kind.TheVariants as kind;
ghost use Rattle.image_model.specs.CallNames as call;

use crate::finding::Finding;
use crate::finding_list::push_if;
use crate::reached::Reached;
use osek_standard::{Block, Call, Kind, ResourceService};
use osek_values::{BlockNo, Memory, ResNo};

impl<'a> Reached<'a> {
    ghost use Rattle.std.specs.{Prelude.{◌≡◌, ◌<◌, length, OnOk}, Bool.{Decides}};
    ghost use Rattle.flow_report.specs.declared.finding.Finding.TheVariants as finding;
    ghost use Rattle.flow_report.specs.{Findings.{Holds}, FindingOrder.{rank_at}, Progress.{AreListed}, Reached.{table_of}};
    ghost use Rattle.table_rows.specs.Rows.{AreRowsFrom};

    fn is_free(&self, block: BlockNo) -> bool
        requires rows { AreRowsFrom self.now.app.now self.now.pool.now self.now.rows.now }
        requires known { block.0 < length self.now.app.now.blocks }
        ensures { Decides result (Holds self.now.app.now (table_of self.now.pool.now self.now.rows.now) (finding.Free block)) }
    {
        let Some(resource) = resource_taken(self.app.block(block)) else {
            return false;
        };
        if !self.is_reached(block) {
            return false;
        }
        !self.is_taken_at(block, resource)
    }

    /// Adds the blocks at which a resource is always free.
    pub fn push_free(&self, findings: &mut Vec<Finding>) -> Result<(), Memory>
        requires rows { AreRowsFrom self.now.app.now self.now.pool.now self.now.rows.now }
        requires listed { AreListed self.now.app.now (table_of self.now.pool.now self.now.rows.now) (rank_at 4 0 0) findings.old.items }
        ensures { OnOk result (AreListed self.now.app.now (table_of self.now.pool.now self.now.rows.now) (rank_at 5 0 0) findings.new.items) }
    {
        for block in 0..self.app.blocks.len() {
            let block = BlockNo(block as u16);
            let holds = self.is_free(block);
            push_if(holds, Finding::Free(block), findings)?;
        }
        Ok(())
    }

    /// Adds the blocks that are never reached.
    pub fn push_dead(&self, findings: &mut Vec<Finding>) -> Result<(), Memory>
        requires rows { AreRowsFrom self.now.app.now self.now.pool.now self.now.rows.now }
        requires listed { AreListed self.now.app.now (table_of self.now.pool.now self.now.rows.now) (rank_at 5 0 0) findings.old.items }
        ensures { OnOk result (AreListed self.now.app.now (table_of self.now.pool.now self.now.rows.now) (rank_at 6 0 0) findings.new.items) }
    {
        for block in 0..self.app.blocks.len() {
            let block = BlockNo(block as u16);
            push_if(!self.is_reached(block), Finding::Dead(block), findings)?;
        }
        Ok(())
    }
}

// the resource that a block takes
fn resource_taken(block: &Block) -> Option<ResNo>
    ensures some { IfSome result (λ r. block.now.kind ≡ kind.Call (call.Resource call.GetResource r)) }
    ensures none { IfNone result ((r : ResNo) → block.now.kind ≡ kind.Call (call.Resource call.GetResource r) → ⊥) }
{
    match block.kind {
        Kind::Call(Call::Resource(ResourceService::GetResource, resource)) => Some(resource),
        _ => None,
    }
}
