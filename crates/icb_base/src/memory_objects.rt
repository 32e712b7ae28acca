//! A store in memory that tells what it holds, and whose calls fail by a plan; for tests.
ghost use Rattle.std.specs.Prelude.{◌≡◌, [], ◌∷◌, ◌++◌, drop, ◌<◌, ◌^◌, ◌-◌, ◌+◌, ℕ, List, min, map, length, position, find, slice_index_or, slice_set, Option, Some, None, OnErr, OnOk, IfSome, IsErr, option_map, is_some, ◌==◌};
ghost use Rattle.std.specs.Option.{option_copied};
ghost use Rattle.icb_base.specs.Causes.{HasCause};
ghost use Rattle.std.specs.FinMap.{len};
ghost use Rattle.icb_base.specs.Counts.{raised, IsRaised, Uncounts};
ghost use Rattle.icb_base.specs.Memory.{asked_in, counted_at, is_at, moved_in, objects_of, SetsIn};
ghost use Rattle.icb_base.specs.Objects.{object_at, part_of, with_object, without_object};

use crate::byte_list::{Bytes, NoMemory};
use crate::object_path::ObjPath;
use crate::storage::{Failed, Put, Remover, Store};
use std::alloc::Global;

/// An object, and how often its path was asked for since it was put.
#[derive(Debug, Drop)]
struct Object {
    path: ObjPath,
    bytes: Bytes,
    asked: u64,
    moved: u64,
}

impl Object {
    ghost use Rattle.std.specs.Prelude.{◌≡◌};
    ghost use Rattle.icb_base.specs.Memory.{counted_once};

    /// Counts a call that moved so many bytes.
    fn count(&mut self, bytes: u64)
        ensures { self.new ≡ counted_once self.old bytes }
    {
        self.asked = self.asked.saturating_add(1);
        self.moved = self.moved.saturating_add(bytes);
    }
}

/// A store in memory. Its calls are numbered from 0; a call whose number is in the plan fails, and
/// where the plan says `true` a put takes place first. A put that finds no memory fails too.
#[derive(Debug, Drop)]
pub struct MemStore {
    alloc: Global,
    objects: Vec<Object>,
    plan: Vec<(u64, bool)>,
    calls: u64,
    faults: u64,
}

impl MemStore {
    ghost use Rattle.std.specs.Prelude.{◌≡◌, ◌≢◌, List, ℕ, length, OnErr, OnOk, Option, Some, None, option_map, IsErr};
    ghost use Rattle.icb_base.specs.Causes.{HasCause};
    ghost use Rattle.icb_base.specs.Counts.{raised};
    ghost use Rattle.icb_base.specs.MemoryStore.{asked_of, call_count, files_of, moved_of, object_count, plan_says, KeepsObjects, SetsPath};
    ghost use Rattle.icb_base.specs.Objects.{object_at};

    /// An empty store with this plan. It takes no memory.
    pub fn new(alloc: Global, plan: Vec<(u64, bool)>) -> Self
        ensures empty { (path : List ℕ) → object_at (files_of result) path ≡ None }
        ensures no_object { object_count result ≡ 0 }
        ensures no_call { call_count result ≡ 0 }
        ensures no_fault { result.faults ≡ 0 }
        ensures plan { result.plan ≡ plan }
    {
        MemStore {
            alloc,
            objects: Vec::new(alloc),
            plan,
            calls: 0,
            faults: 0,
        }
    }

    /// The bytes at a path, if an object is held there. It is no call of the plan.
    pub fn get(&self, path: &ObjPath) -> Option<&[u8]>
        ensures { option_map (λ bytes. bytes.now) result ≡ object_at (files_of self.now) path.now }
    {
        look(&self.objects, path)
    }

    /// Puts bytes at a path, in place of what is held there; for tests. It is no call of the plan.
    pub fn set(&mut self, path: ObjPath, bytes: Bytes) -> Result<(), NoMemory>
        ensures ok { OnOk result (SetsPath path (Some bytes) self.old self.new) }
        ensures err { OnErr result (KeepsObjects self.old self.new) }
    {
        set_in(&mut self.objects, path, bytes)
    }

    /// Takes what is held at a path away; for tests. It is no call of the plan.
    pub fn clear(&mut self, path: &ObjPath)
        ensures { SetsPath path.now None self.old self.new }
    {
        clear_in(&mut self.objects, path);
    }

    /// How many calls of `Store` there were, up to 2^64 - 1.
    pub fn calls(&self) -> u64
        ensures { result ≡ call_count self.now }
    {
        self.calls
    }

    /// How many paths are held. It goes through all objects for each one.
    pub fn objects(&self) -> u64
        ensures { result ≡ object_count self.now }
    {
        count_paths(&self.objects)
    }

    /// How many calls asked for a path since its object was put; 0 where it isn't held.
    pub fn asked_of(&self, path: &ObjPath) -> u64
        ensures { result ≡ asked_of self.now path.now }
    {
        match first_at(&self.objects, path) {
            Some(object) => object.asked,
            None => 0,
        }
    }

    /// How many bytes were moved at a path since its object was put; 0 where it isn't held.
    pub fn moved_of(&self, path: &ObjPath) -> u64
        ensures { result ≡ moved_of self.now path.now }
    {
        match first_at(&self.objects, path) {
            Some(object) => object.moved,
            None => 0,
        }
    }

    /// Counts a call, and says what the plan says of it.
    fn next_call(&mut self) -> Option<bool>
        ensures counted { self.new ≡ record self.old { calls = raised self.old.calls 1 } }
        ensures plan { result ≡ plan_says self.old }
    {
        let call = self.calls;
        self.calls = call.saturating_add(1);
        planned(&self.plan, call)
    }

    /// Counts a failure, and fails.
    fn fail<T>(&mut self) -> Result<T, Failed>
        ensures counted { self.new ≡ record self.old { faults = raised self.old.faults 1 } }
        ensures failed { IsErr result }
        ensures cause { HasCause self.old.faults self.new.faults result }
    {
        self.faults = self.faults.saturating_add(1);
        Err(Failed)
    }
}

/// What the plan says of a call: None where it doesn't fail.
fn planned(plan: &[(u64, bool)], call: u64) -> Option<bool>
    ensures { result ≡ option_map (λ entry. entry.1) (find (λ entry. entry.0 == call) plan.now) }
{
    plan.iter()
        .find(|entry| entry.0 == call)
        .map(|entry| entry.1)
}

/// Puts bytes at a path, in place of what is there.
fn set_in(objects: &mut Vec<Object>, path: ObjPath, bytes: Bytes) -> Result<(), NoMemory>
    ensures ok { OnOk result (SetsIn path (Some bytes) objects.old.items objects.new.items) }
    ensures err { OnErr result (objects.new.items ≡ objects.old.items) }
{
    let object = Object {
        path,
        bytes,
        asked: 0,
        moved: 0,
    };
    match place_of(objects, &object.path) {
        Some(place) => objects[place] = object,
        None => objects.push(object)?,
    }
    Ok(())
}

/// Takes every object at a path away.
fn clear_in(objects: &mut Vec<Object>, path: &ObjPath)
    ensures { SetsIn path.now None objects.old.items objects.new.items }
{
    while let Some(place) = place_of(objects, path) {
        objects.remove(place);
    }
}

/// The place of the first object at a path.
fn place_of(objects: &[Object], path: &ObjPath) -> Option<usize>
    ensures { result ≡ position (is_at path.now) objects.now }
{
    objects
        .iter()
        .position(|object| path.as_str() == object.path.as_str())
}

/// The first object at a path.
fn first_at<'a>(objects: &'a [Object], path: &ObjPath) -> Option<&'a Object>
    ensures { option_copied result ≡ find (is_at path.now) objects.now }
{
    objects
        .iter()
        .find(|object| path.as_str() == object.path.as_str())
}

/// The bytes at a path, if an object is held there.
fn look<'a>(objects: &'a [Object], path: &ObjPath) -> Option<&'a [u8]>
    ensures { option_map (λ bytes. bytes.now) result ≡ object_at (objects_of objects.now) path.now }
{
    match first_at(objects, path) {
        Some(object) => Some(object.bytes.as_slice()),
        None => None,
    }
}

/// Counts a call on a path, and so many bytes moved there.
fn count(objects: &mut [Object], path: &ObjPath, bytes: u64)
    ensures same { objects_of objects.new ≡ objects_of objects.old }
    ensures asked { IsRaised (objects_of objects.old) path.now 1
        (asked_in objects.old) (asked_in objects.new) }
    ensures moved { IsRaised (objects_of objects.old) path.now bytes
        (moved_in objects.old) (moved_in objects.new) }
{
    count_first(objects, path, bytes);
}

/// Counts a call on the first object at a path.
fn count_first(objects: &mut [Object], path: &ObjPath, bytes: u64)
    ensures { objects.new ≡ counted_at path.now bytes objects.old }
{
    for object in objects.iter_mut() {
        if path.as_str() == object.path.as_str() {
            object.count(bytes);
            return;
        }
    }
}

/// Copies what stands from a place on to the front of `out`, and says how many bytes.
fn copy_part(bytes: &[u8], at: u64, out: &mut [u8]) -> usize
    ensures count { result ≡ length (part_of at (length out.old) bytes.now) }
    ensures read { out.new ≡ part_of at (length out.old) bytes.now ++ drop result out.old }
{
    let at = bytes.len().min(at as usize);
    let count = out.len().min(bytes.len() - at);
    out[..count].copy_from_slice(&bytes[at..at + count]);
    count
}

/// Adds an object that nothing was asked of where none is held; after the refusal there is none more.
fn put(
    alloc: Global,
    objects: &mut Vec<Object>,
    path: &ObjPath,
    bytes: &[u8],
) -> Result<(), NoMemory>
    requires { object_at (objects_of objects.old.items) path.now ≡ None }
    ensures ok { OnOk result (objects_of objects.new.items
        ≡ with_object (objects_of objects.old.items) path.now bytes.now) }
    ensures err { OnErr result (objects_of objects.new.items ≡ objects_of objects.old.items) }
    ensures unasked { (any : List ℕ)
        → asked_in objects.new.items any ≡ asked_in objects.old.items any }
    ensures unmoved { (any : List ℕ)
        → moved_in objects.new.items any ≡ moved_in objects.old.items any }
{
    add(alloc, objects, path, bytes)
}

/// Adds an object at the end that nothing was asked of.
fn add(
    alloc: Global,
    objects: &mut Vec<Object>,
    path: &ObjPath,
    bytes: &[u8],
) -> Result<(), NoMemory>
    ensures ok { OnOk result (objects.new.items ≡ objects.old.items
        ++ record { path = path.now; bytes = bytes.now; asked = 0; moved = 0 } ∷ []) }
    ensures err { OnErr result (objects.new.items ≡ objects.old.items) }
{
    let object = Object {
        path: path.copy(alloc)?,
        bytes: Bytes::from_slice(alloc, bytes)?,
        asked: 0,
        moved: 0,
    };
    objects.push(object)?;
    Ok(())
}

/// Takes what is held at a path away, and says whether something was.
fn take_away(objects: &mut Vec<Object>, path: &ObjPath) -> bool
    ensures was { result ≡ is_some (object_at (objects_of objects.old.items) path.now) }
    ensures now { objects_of objects.new.items
        ≡ without_object (objects_of objects.old.items) path.now }
    ensures asked { Uncounts (objects_of objects.old.items) path.now 1
        (Some (objects_of objects.new.items)) (asked_in objects.old.items)
        (asked_in objects.new.items) }
    ensures moved { Uncounts (objects_of objects.old.items) path.now 0
        (Some (objects_of objects.new.items)) (moved_in objects.old.items)
        (moved_in objects.new.items) }
{
    let held = look(objects, path).is_some();
    clear_in(objects, path);
    held
}

/// How many paths the objects are at.
fn count_paths(objects: &[Object]) -> u64
    ensures { result ≡ len (objects_of objects.now) }
{
    let mut count = 0;
    for (place, object) in objects.iter().enumerate() {
        if look(&objects[place + 1..], &object.path).is_none() {
            count += 1;
        }
    }
    count
}

impl Store for MemStore {
    ghost use Rattle.std.specs.Prelude.{◌≡◌, ◌↔◌, Some, IsErr, IsSome};
    ghost use Rattle.std.specs.Option.{option_map_or};
    ghost use Rattle.std.proofs.Common.{ap};
    ghost use Rattle.icb_base.specs.Answers.{AnswersPut, AnswersRead, AnswersSize};
    ghost use Rattle.icb_base.specs.Memory.{number_found};
    ghost use Rattle.icb_base.specs.MemoryStore.{asked_of, files_of, moved_of, plan_says, shown_of, CountsCall, PutsAsPlanned};

    ghost held = { λ s. Some (files_of s) };

    ghost asked = { asked_of };

    ghost moved = { moved_of };

    ghost faults = { λ s. s.faults };

    ghost unasked = { λ s path none.
        ap (number_found (λ object. object.asked) s.objects.items path) none };

    ghost unmoved = { λ s path none.
        ap (number_found (λ object. object.moved) s.objects.items path) none };

    ghost kept_at_rest = { λ x. tt };

    ghost kept_twice = { λ x y z first second. tt };

    fn size(&mut self, path: &ObjPath) -> Result<Option<u64>, Failed>
        ensures answers { AnswersSize path.now result (shown_of self.old) (shown_of self.new) }
        ensures fails_as_planned { IsErr result ↔ IsSome (plan_says self.old) }
        ensures call { CountsCall self.old self.new }
    {
        if self.next_call().is_some() {
            return self.fail();
        }
        count(&mut self.objects, path, 0);
        match look(&self.objects, path) {
            Some(bytes) => Ok(Some(bytes.len() as u64)),
            None => Ok(None),
        }
    }

    fn read_at(&mut self, path: &ObjPath, at: u64, out: &mut [u8]) -> Result<Option<usize>, Failed>
        ensures answers { AnswersRead path.now at out.old out.new result
            (shown_of self.old) (shown_of self.new) }
        ensures fails_as_planned { IsErr result ↔ IsSome (plan_says self.old) }
        ensures call { CountsCall self.old self.new }
    {
        if self.next_call().is_some() {
            return self.fail();
        }
        count(&mut self.objects, path, out.len() as u64);
        match look(&self.objects, path) {
            Some(bytes) => Ok(Some(copy_part(bytes, at, out))),
            None => Ok(None),
        }
    }

    fn put_new(&mut self, path: &ObjPath, bytes: &[u8]) -> Result<Put, Failed>
        ensures answers { AnswersPut path.now bytes.now result
            (shown_of self.old) (shown_of self.new) }
        ensures planned { PutsAsPlanned path.now result self.old self.new }
        ensures call { CountsCall self.old self.new }
    {
        let fails = self.next_call();
        if look(&self.objects, path).is_some() {
            if fails.is_some() {
                return self.fail();
            }
            count(&mut self.objects, path, 1);
            return Ok(Put::Taken);
        }
        if fails == Some(false) || put(self.alloc, &mut self.objects, path, bytes).is_err() {
            return self.fail();
        }
        if fails.is_some() {
            return self.fail();
        }
        Ok(Put::Done)
    }
}

impl Remover for MemStore {
    ghost use Rattle.icb_base.specs.Answers.{AnswersRemoval};
    ghost use Rattle.icb_base.specs.MemoryStore.{shown_of, CountsCall, RemovesAsPlanned};

    fn remove(&mut self, path: &ObjPath) -> Result<bool, Failed>
        ensures answers { AnswersRemoval path.now result (shown_of self.old) (shown_of self.new) }
        ensures planned { RemovesAsPlanned path.now result self.old self.new }
        ensures call { CountsCall self.old self.new }
    {
        let fails = self.next_call();
        if fails == Some(false) {
            return self.fail();
        }
        let held = take_away(&mut self.objects, path);
        if fails.is_some() {
            return self.fail();
        }
        Ok(held)
    }
}
