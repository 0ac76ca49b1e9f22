// The rules of a block that reach themselves before a character is taken (left recursion).
ghost use Rattle.std.specs.Prelude.{◌≡◌, ℕ, ◌-◌, ◌<◌, ◌≤◌, Bool, false, true, nat_eq, length};
ghost use Rattle.std.specs.Prelude.{IfOk, OnOk, ◌+◌};
ghost use Rattle.rpl_core.specs.View.{core_of, cores};
ghost use Rattle.rpl_compile_laws.specs.Static as E;
ghost use Rattle.rpl_facts.specs.Facts.{any_calls_here, calls_at, calls_here};
ghost use Rattle.rpl_facts.specs.Facts.{front_calls_here};
ghost use Rattle.rpl_check.specs.Blocks as B;
ghost use Rattle.rpl_core.specs.Marks.{marked};
ghost use Rattle.rpl_check.specs.inside.Reach.{OverReach};
ghost use Rattle.rpl_check.specs.inside.Search.{AreClean, AreLeft, Finds, Lists};
ghost use Rattle.rpl_check.specs.inside.Search.{marked_from};
ghost use Rattle.rpl_check.specs.inside.Search.{clean_all, clean_core, clean_each, within_or_none};

use crate::NoMemory;
use crate::ranks::find_components;
use rpl_core::{Peg, Rules};
use rpl_facts::is_marked;
use std::alloc::Global;

/// Returns whether the rule is before the block that begins at `start`, or is marked in the block's
/// list.
fn is_clean(clean: &[bool], start: u32, rule: u32) -> bool
    ensures { result ≡ marked_from start clean.now rule }
{
    if rule < start {
        true
    } else {
        is_marked(clean, rule - start)
    }
}

/// If each rule that the pattern may call before it takes a character is clean (see `is_clean`),
/// returns whether the pattern may be empty; otherwise returns `None`.
#[cycle(front)]
fn clean_front(peg: &Peg, empties: &[bool], clean: &[bool], start: u32) -> Option<bool>
    ensures { result ≡ clean_core (marked empties.now) (marked_from start clean.now)
        (core_of peg.now) }
{
    match peg {
        Peg::Set(_) | Peg::Halt => Some(false),
        Peg::Note(_) | Peg::Start | Peg::End => Some(true),
        Peg::Call(rule) => if is_clean(clean, start, *rule) {
            Some(is_marked(empties, *rule))
        } else {
            None
        },
        Peg::Many(body) => stays(clean_front(body, empties, clean, start)),
        Peg::Not(body) => stays(clean_front(body, empties, clean, start)),
        Peg::And(body) => stays(clean_front(body, empties, clean, start)),
        Peg::Behind { body, .. } => stays(clean_front(body, empties, clean, start)),
        Peg::Capture(_, body) => clean_front(body, empties, clean, start),
        Peg::Seq(parts) => clean_front_in_turn(parts.as_slice(), empties, clean, start),
        Peg::Choice(parts) => clean_front_of_each(parts.as_slice(), empties, clean, start),
    }
}

/// Returns the result of `clean_front` for a pattern that can match the empty text regardless of
/// its body, given the result for the body.
fn stays(body: Option<bool>) -> Option<bool>
    ensures { (w e : Bool) → body ≡ within_or_none w e → result ≡ within_or_none w true }
{
    match body {
        Some(_) => Some(true),
        None => None,
    }
}

/// Returns the result of `clean_front` for a sequence of parts.
#[cycle(front)]
fn clean_front_in_turn(parts: &[Peg], empties: &[bool], clean: &[bool], start: u32) -> Option<bool>
    ensures { result ≡ clean_all (marked empties.now) (marked_from start clean.now)
        (cores parts.now) }
{
    for part in parts {
        match clean_front(part, empties, clean, start) {
            Some(true) => {}
            Some(false) => return Some(false),
            None => return None,
        }
    }
    Some(true)
}

/// Returns the result of `clean_front` for a choice between parts.
#[cycle(front)]
fn clean_front_of_each(parts: &[Peg], empties: &[bool], clean: &[bool], start: u32) -> Option<bool>
    ensures { result ≡ clean_each (marked empties.now) (marked_from start clean.now)
        (cores parts.now) }
{
    let mut any = false;
    for part in parts {
        match clean_front(part, empties, clean, start) {
            Some(empty) => any = any || empty,
            None => return None,
        }
    }
    Some(any)
}

/// The rules of a block found so far, and those among them whose bodies have not been searched yet.
/// The block begins at `start`.
#[derive(Drop)]
struct BlockSearch {
    start: u32,
    marks: Vec<bool>,
    waiting: Vec<u32>,
}

impl BlockSearch {
    /// Records the rule as found, if it is in the block.
    fn find(&mut self, rule: u32) -> Result<(), NoMemory>
        ensures { OnOk result (Finds (λ r. nat_eq rule r) self.old self.new) }
    {
        if rule < self.start {
            return Ok(());
        }
        let place = (rule - self.start) as usize;
        if place < self.marks.len() && !self.marks[place] {
            self.waiting.push(rule)?;
            self.marks[place] = true;
        }
        Ok(())
    }
}

/// Finds the rules that the pattern may call before it takes a character, and returns whether the
/// pattern may be empty.
#[cycle(find)]
fn find_calls(search: &mut BlockSearch, peg: &Peg, empties: &[bool]) -> Result<bool, NoMemory>
    ensures finds { OnOk result (Finds (calls_here (marked empties.now) (core_of peg.now))
        search.old search.new) }
    ensures empty { IfOk result (λ b. b ≡ E.may_be_empty (marked empties.now) (core_of peg.now)) }
{
    match peg {
        Peg::Set(_) | Peg::Halt => Ok(false),
        Peg::Note(_) | Peg::Start | Peg::End => Ok(true),
        Peg::Call(rule) => {
            search.find(*rule)?;
            Ok(is_marked(empties, *rule))
        }
        Peg::Many(body) => {
            find_calls(search, body, empties)?;
            Ok(true)
        }
        Peg::Not(body) => {
            find_calls(search, body, empties)?;
            Ok(true)
        }
        Peg::And(body) => {
            find_calls(search, body, empties)?;
            Ok(true)
        }
        Peg::Behind { body, .. } => {
            find_calls(search, body, empties)?;
            Ok(true)
        }
        Peg::Capture(_, body) => find_calls(search, body, empties),
        Peg::Seq(parts) => find_front_calls(search, parts.as_slice(), empties),
        Peg::Choice(parts) => find_all_calls(search, parts.as_slice(), empties),
    }
}

/// Like `find_calls`, but for a sequence of parts.
#[cycle(find)]
fn find_front_calls(
    search: &mut BlockSearch,
    parts: &[Peg],
    empties: &[bool],
) -> Result<bool, NoMemory>
    ensures finds { OnOk result
        (Finds (front_calls_here (marked empties.now) (cores parts.now)) search.old search.new) }
    ensures empty { IfOk result (λ b. b ≡ E.all_may_be_empty (marked empties.now)
        (cores parts.now)) }
{
    for part in parts {
        if !find_calls(search, part, empties)? {
            return Ok(false);
        }
    }
    Ok(true)
}

/// Like `find_calls`, but for a choice between parts.
#[cycle(find)]
fn find_all_calls(
    search: &mut BlockSearch,
    parts: &[Peg],
    empties: &[bool],
) -> Result<bool, NoMemory>
    ensures finds { OnOk result (Finds (any_calls_here (marked empties.now) (cores parts.now))
        search.old search.new) }
    ensures empty { IfOk result (λ b. b ≡ E.any_may_be_empty (marked empties.now)
        (cores parts.now)) }
{
    let mut any = false;
    for part in parts {
        let empty = find_calls(search, part, empties)?;
        any = any || empty;
    }
    Ok(any)
}

/// Lists the rules that the pattern may call before it takes a character, and returns whether the
/// pattern may be empty.
#[cycle(list)]
fn list_calls(list: &mut Vec<u32>, peg: &Peg, empties: &[bool]) -> Result<bool, NoMemory>
    ensures lists { OnOk result
        (Lists (calls_here (marked empties.now) (core_of peg.now)) list.old.items list.new.items) }
    ensures empty { IfOk result (λ b. b ≡ E.may_be_empty (marked empties.now) (core_of peg.now)) }
{
    match peg {
        Peg::Set(_) | Peg::Halt => Ok(false),
        Peg::Note(_) | Peg::Start | Peg::End => Ok(true),
        Peg::Call(rule) => {
            list.push(*rule)?;
            Ok(is_marked(empties, *rule))
        }
        Peg::Many(body) => {
            list_calls(list, body, empties)?;
            Ok(true)
        }
        Peg::Not(body) => {
            list_calls(list, body, empties)?;
            Ok(true)
        }
        Peg::And(body) => {
            list_calls(list, body, empties)?;
            Ok(true)
        }
        Peg::Behind { body, .. } => {
            list_calls(list, body, empties)?;
            Ok(true)
        }
        Peg::Capture(_, body) => list_calls(list, body, empties),
        Peg::Seq(parts) => list_front_calls(list, parts.as_slice(), empties),
        Peg::Choice(parts) => list_all_calls(list, parts.as_slice(), empties),
    }
}

/// Like `list_calls`, but for a sequence of parts.
#[cycle(list)]
fn list_front_calls(list: &mut Vec<u32>, parts: &[Peg], empties: &[bool]) -> Result<bool, NoMemory>
    ensures lists { OnOk result
        (Lists (front_calls_here (marked empties.now) (cores parts.now)) list.old.items
        list.new.items) }
    ensures empty { IfOk result (λ b. b ≡ E.all_may_be_empty (marked empties.now)
        (cores parts.now)) }
{
    for part in parts {
        if !list_calls(list, part, empties)? {
            return Ok(false);
        }
    }
    Ok(true)
}

/// Like `list_calls`, but for a choice between parts.
#[cycle(list)]
fn list_all_calls(list: &mut Vec<u32>, parts: &[Peg], empties: &[bool]) -> Result<bool, NoMemory>
    ensures lists { OnOk result
        (Lists (any_calls_here (marked empties.now) (cores parts.now)) list.old.items
        list.new.items) }
    ensures empty { IfOk result (λ b. b ≡ E.any_may_be_empty (marked empties.now)
        (cores parts.now)) }
{
    let mut any = false;
    for part in parts {
        let empty = list_calls(list, part, empties)?;
        any = any || empty;
    }
    Ok(any)
}

/// The dependencies inside a block: for each place, the places that call it, and the number of its
/// own calls that are still pending.
#[derive(Drop)]
struct Turns {
    callers: Vec<Vec<u32>>,
    needs: Vec<u32>,
}

impl Turns {
    /// Returns dependencies with no calls noted yet.
    fn new(alloc: Global, count: u32) -> Result<Turns, NoMemory>
        ensures { IfOk result (λ t. (length t.callers.items ≡ count) ×
            (length t.needs.items ≡ count)) }
    {
        let mut callers = Vec::new(alloc);
        for _ in 0..count {
            callers.push(Vec::new(alloc))?;
        }
        Ok(Turns {
            callers,
            needs: vec![in alloc; 0; count as usize]?,
        })
    }

    /// Notes that the rule at `place` calls the rule at `called`.
    fn note(&mut self, place: u32, called: u32) -> Result<(), NoMemory>
        ensures { OnOk result (length self.new.callers.items ≡ length self.old.callers.items) }
    {
        let (place_at, called_at) = (place as usize, called as usize);
        if place_at < self.needs.len() && called_at < self.callers.len() {
            self.callers[called_at].push(place)?;
            self.needs[place_at] = self.needs[place_at].saturating_add(1);
        }
        Ok(())
    }

    /// Lists places in an order in which each comes after all places that it calls. Places that
    /// can't be ordered in this way are left out.
    fn order(&mut self, alloc: Global) -> Result<Vec<u32>, NoMemory> {
        let mut order = Vec::new(alloc);
        let mut place: u32 = 0;
        for needs in &self.needs {
            if *needs == 0 {
                order.push(place)?;
            }
            place = place.saturating_add(1);
        }
        for at in 0..self.callers.len() {
            if at < order.len() {
                release(&self.callers, &mut self.needs, order[at], &mut order)?;
            }
        }
        Ok(order)
    }
}

/// Marks one of the calls made by the rule at `place` as done. Returns whether that call was the
/// rule's last pending call.
fn is_last(needs: &mut [u32], place: u32) -> bool {
    let at = place as usize;
    if at >= needs.len() || needs[at] == 0 {
        return false;
    }
    needs[at] -= 1;
    needs[at] == 0
}

/// Marks each call of the rule at `place` as done. Appends to `order` each caller that then has no
/// pending calls left.
fn release(
    callers: &[Vec<u32>],
    needs: &mut [u32],
    place: u32,
    order: &mut Vec<u32>,
) -> Result<(), NoMemory> {
    let at = place as usize;
    if at >= callers.len() {
        return Ok(());
    }
    for caller in &callers[at] {
        if is_last(needs, *caller) {
            order.push(*caller)?;
        }
    }
    Ok(())
}

/// A block of the table: its rules from `start` up to, but not including, `end`, and the rules of
/// the table that may be empty.
#[derive(Clone, Copy)]
pub(crate) struct Block<'a> {
    pub(crate) rules: &'a Rules,
    pub(crate) start: u32,
    pub(crate) end: u32,
    pub(crate) empties: &'a [bool],
}

impl Block<'_> {
    ghost use Rattle.rpl_check.specs.inside.Within.{Stands, IsLong, empty_in, table_of};

    /// Finds the rules that rule number `number` calls before it takes a character. Finds nothing
    /// if there is no rule with this number.
    fn find_calls_of(&self, search: &mut BlockSearch, number: u32) -> Result<(), NoMemory>
        ensures { OnOk result
            (Finds (calls_at (empty_in self.now) (table_of self.now) number) search.old
            search.new) }
    {
        if let Some(rule) = self.rules.get(number) {
            find_calls(search, &rule.body, self.empties)?;
        }
        Ok(())
    }

    /// Returns whether, before it takes a character, the rule calls only rules that are marked in
    /// `clean` or are before the block.
    fn calls_clean(&self, number: u32, clean: &[bool]) -> bool
        ensures clean { result ≡ true → (r : ℕ) →
            calls_at (empty_in self.now) (table_of self.now) number r ≡ true →
            marked_from self.now.start clean.now r ≡ true }
        ensures other { result ≡ false → (r : ℕ)
            × (calls_at (empty_in self.now) (table_of self.now) number r ≡ true)
            × (marked_from self.now.start clean.now r ≡ false) }
    {
        match self.rules.get(number) {
            Some(rule) => clean_front(&rule.body, self.empties, clean, self.start).is_some(),
            None => true,
        }
    }

    /// Returns whether the rule reaches itself before it takes a character. Follows the rule's
    /// calls through the block.
    fn reaches_itself(&self, alloc: Global, number: u32) -> Result<bool, NoMemory>
        requires block { Stands self.now }
        requires within { (self.now.start ≤ number) × (number < self.now.end) }
        ensures { OverReach (table_of self.now) (empty_in self.now)
            (λ reach. IfOk result (λ b. b ≡ reach number number)) }
    {
        let mut search = BlockSearch {
            start: self.start,
            marks: vec![in alloc; false; (self.end - self.start) as usize]?,
            waiting: Vec::new(alloc),
        };
        self.find_calls_of(&mut search, number)?;
        while let Some(next) = search.waiting.pop() {
            self.find_calls_of(&mut search, next)?;
        }
        Ok(search.marks[(number - self.start) as usize])
    }

    /// Marks the rule at `place` in the block if, before it takes a character, it calls only marked
    /// rules and rules before the block.
    fn mark_if_clean(&self, place: u32, clean: &mut [bool])
        requires block { Stands self.now }
        requires long { IsLong self.now clean.old }
        requires clean { AreClean (table_of self.now) (empty_in self.now) self.now.start clean.old }
        ensures long { IsLong self.now clean.new }
        ensures clean { AreClean (table_of self.now) (empty_in self.now) self.now.start clean.new }
    {
        if place >= self.end - self.start || clean[place as usize] {
            return;
        }
        if self.calls_clean(self.start + place, clean) {
            clean[place as usize] = true;
        }
    }

    /// Visits the rules in the order in which `order` lists them, and marks, without a search,
    /// rules that don't reach themselves. If each rule comes after the rules that it calls, all
    /// rules in the list are marked.
    fn mark_in_turn(&self, order: &[u32], clean: &mut [bool])
        requires block { Stands self.now }
        requires long { IsLong self.now clean.old }
        requires none { (r : ℕ) → marked clean.old r ≡ false }
        ensures long { IsLong self.now clean.new }
        ensures clean { AreClean (table_of self.now) (empty_in self.now) self.now.start clean.new }
    {
        for place in order {
            self.mark_if_clean(*place, clean);
        }
    }

    /// Lists the rules that the rule at `place` calls before it takes a character.
    pub(crate) fn list_calls_of(&self, place: u32, list: &mut Vec<u32>) -> Result<(), NoMemory>
        requires block { Stands self.now }
        requires inside { place < self.now.end - self.now.start }
        ensures { OnOk result
            (Lists (calls_at (empty_in self.now) (table_of self.now) (self.now.start + place))
            list.old.items
            list.new.items) }
    {
        if let Some(rule) = self.rules.get(self.start + place) {
            list_calls(list, &rule.body, self.empties)?;
        }
        Ok(())
    }

    /// Notes the rule at `place` as a caller of each of the listed rules that are in the block.
    fn note_caller(&self, place: u32, list: &[u32], turns: &mut Turns) -> Result<(), NoMemory>
        requires block { Stands self.now }
        ensures { OnOk result (length turns.new.callers.items ≡ length turns.old.callers.items) }
    {
        for rule in list {
            if *rule >= self.start && *rule < self.end {
                turns.note(place, *rule - self.start)?;
            }
        }
        Ok(())
    }

    /// Returns the dependencies inside the block.
    fn turns(&self, alloc: Global) -> Result<Turns, NoMemory>
        requires { Stands self.now }
    {
        let mut turns = Turns::new(alloc, self.end - self.start)?;
        for place in 0..self.end - self.start {
            let mut list = Vec::new(alloc);
            self.list_calls_of(place, &mut list)?;
            self.note_caller(place, &list, &mut turns)?;
        }
        Ok(turns)
    }

    /// Returns a list in which rules that don't reach themselves are marked. In `left`, marks rules
    /// that reach themselves. If all rules can be put in an order in which each comes after the
    /// rules that it calls, no rule is on a cycle, and the components are not computed.
    fn clean_rules(&self, alloc: Global, left: &mut [bool]) -> Result<Vec<bool>, NoMemory>
        requires block { Stands self.now }
        requires left_long { IsLong self.now left.old }
        requires left { AreLeft (table_of self.now) (empty_in self.now) self.now.start left.old }
        ensures long { IfOk result (λ v. IsLong self.now v.items) }
        ensures clean { IfOk result (λ v.
            AreClean (table_of self.now) (empty_in self.now) self.now.start v.items) }
        ensures left_long { IsLong self.now left.new }
        ensures left { AreLeft (table_of self.now) (empty_in self.now) self.now.start left.new }
    {
        let mut clean = vec![in alloc; false; (self.end - self.start) as usize]?;
        let mut turns = self.turns(alloc)?;
        let order = turns.order(alloc)?;
        self.mark_in_turn(&order, &mut clean);
        if order.len() >= clean.len() {
            return Ok(clean);
        }
        let found = find_components(alloc, &turns.callers)?;
        self.mark_alone(alloc, &found.ranks, &mut clean)?;
        self.mark_rings(alloc, &found, left)?;
        Ok(clean)
    }

    /// Returns whether the rule reaches itself before it takes a character. A clean rule doesn't
    /// reach itself, and a rule marked in `left` does. The calls of any other rule are searched.
    fn is_left_recursive(
        &self,
        alloc: Global,
        number: u32,
        clean: &[bool],
        left: &[bool],
    ) -> Result<bool, NoMemory>
        requires block { Stands self.now }
        requires within { (self.now.start ≤ number) × (number < self.now.end) }
        requires clean_long { IsLong self.now clean.now }
        requires clean { AreClean (table_of self.now) (empty_in self.now) self.now.start clean.now }
        requires left_long { IsLong self.now left.now }
        requires left { AreLeft (table_of self.now) (empty_in self.now) self.now.start left.now }
        ensures { OverReach (table_of self.now) (empty_in self.now)
            (λ reach. IfOk result (λ b. b ≡ reach number number)) }
    {
        let place = (number - self.start) as usize;
        if clean[place] {
            return Ok(false);
        }
        if left[place] {
            return Ok(true);
        }
        self.reaches_itself(alloc, number)
    }

    /// Lists the rules of a block that reach themselves, given marks for clean rules and for some
    /// of the rules that reach themselves.
    fn list_selves(
        &self,
        alloc: Global,
        clean: &[bool],
        left: &[bool],
    ) -> Result<Vec<u32>, NoMemory>
        requires block { Stands self.now }
        requires clean_long { IsLong self.now clean.now }
        requires clean { AreClean (table_of self.now) (empty_in self.now) self.now.start clean.now }
        requires left_long { IsLong self.now left.now }
        requires left { AreLeft (table_of self.now) (empty_in self.now) self.now.start left.now }
        ensures { OverReach (table_of self.now) (empty_in self.now) (λ reach.
            IfOk result (λ v. v.items ≡ B.selves reach self.now.start
            (self.now.end - self.now.start))) }
    {
        let mut list = Vec::new(alloc);
        for number in self.start..self.end {
            if self.is_left_recursive(alloc, number, clean, left)? {
                list.push(number)?;
            }
        }
        Ok(list)
    }

    /// Returns, in order, the rules of a block that reach themselves before they take a character.
    pub(crate) fn selves(&self, alloc: Global) -> Result<Vec<u32>, NoMemory>
        requires { Stands self.now }
        ensures { OverReach (table_of self.now) (empty_in self.now) (λ reach.
            IfOk result (λ v. v.items ≡ B.selves reach self.now.start
            (self.now.end - self.now.start))) }
    {
        let mut left = vec![in alloc; false; (self.end - self.start) as usize]?;
        let clean = self.clean_rules(alloc, &mut left)?;
        self.list_selves(alloc, &clean, &left)
    }
}
