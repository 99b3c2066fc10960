//! What is looked up of a session: its blocks, and what is in them.
ghost use Rattle.std.specs.Prelude.{◌≡◌, Bool, true, false, Some};
ghost use Rattle.std.specs.Borrow.{sem};
ghost use Rattle.std.specs.Option.{option_map};
ghost use Rattle.geos_model.specs.Forms.{form_asked, has_form};
ghost use Rattle.geos_model.specs.LookUps.{command_of, places_look_up, plain_look_up, step_name_look_up};
ghost use Rattle.geos_model.specs.Reply.{BytesAre, NumberIs, PlacesAre, reply_by, reply_of, blocks_are, found};
ghost use Rattle.geos_model.specs.Machine.{Step};
ghost use Rattle.geos_model.specs.declared.command.Command.TheVariants as commands;
ghost use Rattle.doc_edits.specs.LookUps.{AfterLoan};
ghost use Rattle.undo_log.specs.Asking.{direction_of, places_fault, turn_fault};
ghost use Rattle.undo_log.specs.Sessions.{machine_of, AnswersAsked};
ghost use Rattle.undo_log.specs.contracts.session.Session.{the_row};

use super::Session;
use crate::turning::nothing_to_turn;
use doc_edits::look_ups::{self, Prepared};
use geos_model::{
    Fault, LookUp, Place, PlacesLookUp, PlainLookUp, Reply, StepNameLookUp, VmHandle,
};
use vm_blocks::Direction;
use vm_store::Store;

// Lends what was prepared, each reply of the field in which it stands.
macro_rules! lend {
    ($session:expr, $prepared:expr) => {
        match $prepared {
            Prepared::Blocks => Ok(Reply::Blocks(&$session.lists.blocks)),
            Prepared::Chunks => Ok(Reply::Chunks(&$session.lists.chunks)),
            Prepared::Bytes => Ok(Reply::Bytes(&$session.lists.bytes)),
            _ => look_ups::answer(&$session.blocks, $prepared),
        }
    };
}

impl<S: Store> Session<S> {
    /// What a look-up answers; bytes and lists are lent. It is refused first as its rules say: NoBlock or WrongKind,
    /// which are known without a block; then CacheFull; then what a body refuses. Memory, File or Damaged may come in
    /// place of what follows CacheFull.
    pub fn look_up(&mut self, look_up: LookUp<'_>) -> Result<Reply<'_>, Fault>
        ensures* leaves { sem 𝓛 (AfterLoan (the_row S.row S.Store) self.entry (λ new.
            AnswersAsked S.facts self.old new look_up.entry (reply_by reply_of result))) }
        ensures form { has_form (reply_by reply_of result) (form_asked (command_of look_up.entry)) ≡ true }
    {
        match look_up {
            LookUp::List => {
                self.blocks.list_into(&mut self.lists.blocks)?;
                Ok(Reply::Blocks(&self.lists.blocks))
            }
            LookUp::Plain(asked) => self.plain(asked),
            LookUp::StepName(asked) => self.named(asked),
            LookUp::Places(asked) => {
                // What was lent before goes first.
                self.shown = Vec::new(self.alloc);
                self.shown = self.places(asked)?;
                Ok(Reply::Places(&self.shown))
            }
            LookUp::InBlock(block, asked) => {
                self.blocks.reveal_invariant();
                let prepared = look_ups::prepare_in_block(
                    &mut self.blocks,
                    &mut self.lists,
                    block,
                    asked,
                )?;
                lend!(self, prepared)
            }
            LookUp::AlongChain(asked) => {
                self.blocks.reveal_invariant();
                let prepared = look_ups::prepare_along_chain(
                    self.alloc,
                    &mut self.blocks,
                    &mut self.lists,
                    asked,
                )?;
                lend!(self, prepared)
            }
        }
    }

    // What is answered by a value, without a look into any block.
    fn plain(&self, asked: PlainLookUp) -> Result<Reply<'_>, Fault>
        ensures { ((target : Bool) → Step false (machine_of target self.now) (Some (plain_look_up asked))
            (reply_by reply_of result) (machine_of target self.now))
            × (has_form (reply_by reply_of result) (form_asked (plain_look_up asked)) ≡ true) }
    {
        match asked {
            PlainLookUp::HeapType(block) => {
                self.heap_type(block).map(|n| Reply::Number(u64::from(n)))
            }
            PlainLookUp::Find(user_id, start) => {
                Ok(Reply::Block(self.find(user_id, start).unwrap_or(VmHandle(0))))
            }
            PlainLookUp::MapBlock => Ok(Reply::Block(self.map_block())),
            PlainLookUp::Locks(block) => self.locks(block).map(|n| Reply::Number(u64::from(n))),
            PlainLookUp::Undos => Ok(Reply::Number(self.undo_count() as u64)),
            PlainLookUp::Redos => Ok(Reply::Number(self.redo_count() as u64)),
            PlainLookUp::Modified => Ok(Reply::Number(self.stands_as())),
        }
    }

    // The name of a step, as a reply.
    fn named(&self, asked: StepNameLookUp) -> Result<Reply<'_>, Fault>
        ensures { ((target : Bool) → Step false (machine_of target self.now) (Some (step_name_look_up asked))
            (reply_by reply_of result) (machine_of target self.now))
            × (has_form (reply_by reply_of result) (form_asked (step_name_look_up asked)) ≡ true) }
    {
        match self.step_name(asked) {
            Ok(name) => Ok(Reply::Bytes(name)),
            Err(fault) => Err(fault),
        }
    }

    /// The name of the step that an undo takes back, or of the one that a redo makes again; no bytes where it has none.
    /// GroupOpen while a group is open, before all else; NothingToUndo, NothingToRedo. No memory, no store.
    pub fn step_name(&self, asked: StepNameLookUp) -> Result<&[u8], Fault>
        ensures { (target : Bool) → Step false (machine_of target self.now) (Some (step_name_look_up asked))
            (reply_by (λ name. BytesAre name.now) result) (machine_of target self.now) }
    {
        let direction = direction_of(asked);
        match self.turn_fault(direction) {
            Some(fault) => Err(fault),
            None => Ok(self.log.next_name(direction)),
        }
    }

    /// Where the document was changed last, each place in the coordinates after those before it; or where an undo, a
    /// redo or an abandon would change it, as it would be told then. GroupOpen while a group is open and an undo or a
    /// redo is asked for, before all else; NothingToUndo, NothingToRedo; NoGroup; Memory.
    pub fn places(&self, asked: PlacesLookUp) -> Result<Vec<Place>, Fault>
        ensures { (target : Bool) → Step false (machine_of target self.now) (Some (places_look_up asked))
            (reply_by (λ places. PlacesAre places.items) result) (machine_of target self.now) }
    {
        if let Some(fault) = self.places_fault(asked) {
            return Err(fault);
        }
        let mut places = Vec::new(self.alloc);
        self.log.tell(asked, &mut places)?;
        Ok(places)
    }

    // What keeps places from being told, for want of memory aside.
    fn places_fault(&self, asked: PlacesLookUp) -> Option<Fault>
        ensures { result ≡ places_fault asked self.now.log }
    {
        match asked {
            PlacesLookUp::Touched => None,
            PlacesLookUp::Undo => self.turn_fault(Direction::Backwards),
            PlacesLookUp::Redo => self.turn_fault(Direction::Forwards),
            PlacesLookUp::Abandon if self.log.in_group() => None,
            PlacesLookUp::Abandon => Some(Fault::NoGroup),
        }
    }

    // What keeps a turn in a direction from being asked for.
    fn turn_fault(&self, direction: Direction) -> Option<Fault>
        ensures { result ≡ turn_fault direction self.now.log }
    {
        if self.log.in_group() {
            return Some(Fault::GroupOpen);
        }
        match self.log.next_step(direction) {
            Some(_) => None,
            None => Some(nothing_to_turn(direction)),
        }
    }

    /// The live blocks, rising.
    pub fn list(&self) -> Result<Vec<VmHandle>, Fault>
        ensures { (target : Bool) → Step false (machine_of target self.now) (Some commands.List)
            (reply_by (λ handles. blocks_are handles.items) result) (machine_of target self.now) }
    {
        Ok(self.blocks.list()?)
    }

    /// The least live handle above `start` whose block has this user ID.
    pub fn find(&self, user_id: u16, start: VmHandle) -> Option<VmHandle>
        ensures { option_map (λ h. h.0) result ≡ found self.now.document user_id start.0 }
    {
        self.blocks.find(user_id, start)
    }

    /// The map block, 0 if there is none.
    pub fn map_block(&self) -> VmHandle
        ensures { result.0 ≡ self.now.document.map_block }
    {
        self.blocks.map_block()
    }

    /// The type of a heap. NoBlock, WrongKind.
    pub fn heap_type(&self, block: VmHandle) -> Result<u16, Fault>
        ensures { (target : Bool) → Step false (machine_of target self.now) (Some (commands.HeapType block))
            (reply_by NumberIs result) (machine_of target self.now) }
    {
        if !self.blocks.is_live(block) {
            return Err(Fault::NoBlock);
        }
        if !self.blocks.is_heap(block) {
            return Err(Fault::WrongKind);
        }
        Ok(self.blocks.attributes(block).heap_type)
    }
}

// The direction of the step whose name is asked for.
fn direction_of(asked: StepNameLookUp) -> Direction
    ensures { result ≡ direction_of asked }
{
    match asked {
        StepNameLookUp::Undo => Direction::Backwards,
        StepNameLookUp::Redo => Direction::Forwards,
    }
}
