//! Code in which known quotations are put off: what all steps are made of.
ghost use Rattle.std.specs.Prelude.{◌≡◌, ◌+◌, [], length, true, OnOk, IfOk};
ghost use Rattle.fac_expand.specs.inner.Stacks.{heres_on};
ghost use Rattle.fac_expand.specs.inner.Changes.{Grows, TakesTop, Forgets, Writes, Owes, Fixed, Calls, ticks};

use crate::draft::Draft;
use crate::hints::Hints;
use crate::known::Entry;
use crate::plan::Plan;
use crate::stopped::Stopped;
use fac_code::Instr;

impl<'a> Plan<'a> {
    /// Something can't be put off. Where the plan is strict, that is the end.
    pub fn trouble(&self) -> Result<(), Stopped>
        ensures { OnOk result (self.now.strict ≡ true → ⊥) }
    {
        if self.strict {
            return Err(Stopped::Plain);
        }
        Ok(())
    }

    /// The place behind a draft.
    pub fn place(&self, draft: &Draft) -> Result<u32, Stopped>
        ensures { IfOk result (λ place. place ≡ self.now.base + length draft.now.code) }
    {
        let count = draft.code.len();
        if count > (u32::MAX - self.base) as usize {
            return Err(Stopped::Memory);
        }
        Ok(self.base + count as u32)
    }

    /// The place so many instructions behind a draft.
    pub fn place_behind(&self, draft: &Draft, count: u32) -> Result<u32, Stopped>
        ensures { IfOk result (λ place. place ≡ self.now.base + length draft.now.code + count) }
    {
        match self.place(draft)?.checked_add(count) {
            Some(place) => Ok(place),
            None => Err(Stopped::Memory),
        }
    }

    /// One tick more is owed.
    pub fn owe(&self, draft: &mut Draft) -> Result<(), Stopped>
        ensures { OnOk result (Owes draft.old draft.new) }
    {
        match draft.owed.checked_add(1) {
            Some(owed) => {
                draft.owed = owed;
                Ok(())
            }
            None => Err(Stopped::Memory),
        }
    }

    /// The ticks that are owed are taken.
    pub fn pay(&self, draft: &mut Draft) -> Result<(), Stopped>
        ensures { OnOk result (Writes (ticks draft.old.owed) 0 draft.old.stack draft.old draft.new) }
    {
        if draft.owed == 0 {
            return Ok(());
        }
        draft.code.push(Instr::Tick(draft.owed))?;
        draft.owed = 0;
        Ok(())
    }

    /// One cell more.
    pub fn grow(&self, draft: &mut Draft) -> Result<(), Stopped>
        ensures { OnOk result (Grows draft.old draft.new) }
    {
        match draft.cells.checked_add(1) {
            Some(cells) => {
                draft.cells = cells;
                Ok(())
            }
            None => Err(Stopped::Memory),
        }
    }

    /// The top entry is to be on the machine's stack.
    pub fn take_here(&self, draft: &mut Draft, hints: &mut Hints) -> Result<(), Stopped>
        ensures { OnOk result (self.now.strict ≡ true → TakesTop 1 draft.old draft.new) }
    {
        match draft.stack.pop() {
            Entry::Here => Ok(()),
            Entry::Off(callable) => {
                self.trouble()?;
                hints.note_callable(self.alloc, draft.put_off.as_slice(), callable)?;
                Ok(())
            }
        }
    }

    /// So are so many top entries.
    pub fn take_all_here(
        &self,
        draft: &mut Draft,
        hints: &mut Hints,
        count: usize,
    ) -> Result<(), Stopped>
        ensures { OnOk result (self.now.strict ≡ true → TakesTop count draft.old draft.new) }
    {
        for taken in 0..count {
            self.take_here(draft, hints)?;
        }
        Ok(())
    }

    /// So many values are pushed.
    pub fn push_here(&self, draft: &mut Draft, count: u32) -> Result<(), Stopped>
        ensures { OnOk result (Writes [] draft.old.owed (heres_on count draft.old.stack) draft.old draft.new) }
    {
        for pushed in 0..count {
            draft.stack.push(Entry::Here)?;
        }
        Ok(())
    }

    /// All entries are to be on the machine's stack. Then nothing is known of it.
    pub fn forget_all(&self, draft: &mut Draft, hints: &mut Hints) -> Result<(), Stopped>
        ensures { OnOk result (self.now.strict ≡ true → Forgets draft.old draft.new) }
    {
        let count = draft.stack.len();
        self.take_all_here(draft, hints, count)
    }

    /// An instruction that takes and leaves so many values of the machine's stack.
    pub fn fixed(
        &self,
        draft: &mut Draft,
        hints: &mut Hints,
        instr: Instr,
        takes: u32,
        leaves: u32,
    ) -> Result<(), Stopped>
        ensures { OnOk result (self.now.strict ≡ true → Fixed instr takes leaves draft.old draft.new) }
    {
        self.take_all_here(draft, hints, takes as usize)?;
        self.pay(draft)?;
        draft.code.push(instr)?;
        self.push_here(draft, leaves)
    }

    /// An instruction before which nothing is put off. Nothing is known of the stack behind it.
    pub fn unknown(&self, draft: &mut Draft, hints: &mut Hints, instr: Instr) -> Result<(), Stopped>
        ensures { OnOk result (self.now.strict ≡ true → Calls instr draft.old draft.new) }
    {
        self.forget_all(draft, hints)?;
        self.pay(draft)?;
        draft.code.push(instr)?;
        Ok(())
    }
}
