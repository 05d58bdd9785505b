//! Jobs in threads of a scope, which wait until all are started.
ghost use Rattle.std.specs.Prelude.{◌≡◌, ◌+◌, ◌<◌, ◌≤◌, [], ◌∷◌, ◌++◌, All, true, false, IfOk, IfErr, IfSome, OnOk, OnErr, vec_len, vec_capacity};
ghost use Rattle.std.specs.List.{AllZip};
ghost use Rattle.sync_outside.specs.Starts.{Becomes, is_done};
ghost use Rattle.sync_outside.specs.Told.{Fares, owed};

use crate::spawner::Started;
use crate::work::Work;
use std::alloc::Global;
use std::snapshot::Snapshot;
use std::sync::{OnceLock, OnceToken, Wait};
use std::thread;
use std::thread::{Promise, PromisedHandle, Scope, Threads};

/// What a thread did with its job.
#[derive(Drop)]
pub(crate) enum Fate<W, O> {
    /// It did the job, which came to this.
    Done(O),
    /// It kept the job.
    Kept(W),
}

/// What a thread comes to: what it did, and what shows which word it heard.
#[derive(Drop)]
struct Told<'a, W, O> {
    token: OnceToken<'a, bool>,
    fate: Fate<W, O>,
}

/// That a thread does this job where the word is to go, and else keeps it.
#[derive(Drop)]
struct JobOf<'a, W> {
    job: Snapshot<W>,
    word: &'a OnceLock<bool>,
}

impl<'a, W: Work> Promise<Told<'a, W, W::Out>> for JobOf<'a, W> {
    ghost kept_by = { λ p told. (told.token.of ≡ p.word.now.id) × Fares W.gives p.job.value told.token.value told.fate };
}

/// Stands where another word was heard than the one that was said, and waits for ever. Only the starter says a word, and it
/// says one alone, so no call comes here; that can't be proved, since a lock doesn't say who wrote its value.
fn never<R: Wait, T>(rt: &R) -> T
    ensures { ⊥ }
{
    for _ in rt.forever() {
        thread::yield_now();
    }
    unreachable!()
}

/// Waits until the word is said.
fn hear<'a, R: Wait>(rt: &R, word: &'a OnceLock<bool>) -> OnceToken<'a, bool>
    ensures { result.of ≡ word.now.id }
{
    for _ in rt.forever() {
        word.wait(rt);
        if let Some(token) = word.witness() {
            return token;
        }
    }
    unreachable!()
}

/// Does a job where the word is to go, and else keeps it.
fn follow<'a, R: Wait, W: Work>(rt: &R, word: &'a OnceLock<bool>, job: W) -> Told<'a, W, W::Out>
    requires { W.ready job }
    ensures word { result.token.of ≡ word.now.id }
    ensures fate { Fares W.gives job result.token.value result.fate }
{
    let token = hear(rt, word);
    let goes = *word.value(&token);
    if goes {
        let result = job.work(rt);
        return Told {
            token,
            fate: Fate::Done(result),
        };
    }
    Told {
        token,
        fate: Fate::Kept(job),
    }
}

/// A thread that has a job.
type Handle<'a, W> = PromisedHandle<Told<'a, W, <W as Work>::Out>, JobOf<'a, W>>;

/// Starts a job. Where the start is refused, all threads are told to keep their jobs, and this one comes back.
fn begin<'s, E, R: Wait + Sync, W: Work + 's>(
    scope: &Scope<'s, E>,
    rt: &'s R,
    word: &'s OnceLock<bool>,
    job: W,
) -> Result<Handle<'s, W>, W>
    requires { W.ready job }
    ensures runs { IfOk result (λ handle. (handle.promise.job.value ≡ job) × (handle.promise.word.now.id ≡ word.now.id)) }
    ensures refused { IfErr result (λ back. back ≡ job) }
{
    let promise = JobOf {
        job: Snapshot::of(&job),
        word,
    };
    let run = move || -> Told<'_, W, W::Out>
        requires { W.ready job }
        ensures word { result.token.of ≡ word.entry.now.id }
        ensures fate { Fares W.gives job result.token.value result.fate }
    { follow(rt, word, job) };
    match scope.spawn_with(promise, run) {
        Ok(handle) => Ok(handle),
        Err(refused) => {
            word.init(rt, || false);
            let Told { token: _, fate } = (refused.value)();
            match fate {
                Fate::Kept(job) => Err(job),
                Fate::Done(_result) => never(rt),
            }
        }
    }
}

/// Adds an item where there is room.
fn push_within<T: Drop>(list: &mut Vec<T>, item: T)
    requires { vec_len list.old < vec_capacity list.old }
    ensures items { list.new.items ≡ list.old.items ++ item ∷ [] }
    ensures len { vec_len list.new ≡ vec_len list.old + 1 }
    ensures room { vec_capacity list.old ≤ vec_capacity list.new }
{
    let pushed = list.push(item);
    prove!(pushed.is_ok());
}

/// Starts jobs, the last one first, each start up to the number that are let through. Answers the job whose
/// start was refused.
fn begin_each<'s, E, R: Wait + Sync, W: Work + 's>(
    scope: &Scope<'s, E>,
    rt: &'s R,
    word: &'s OnceLock<bool>,
    jobs: &mut Vec<W>,
    handles: &mut Vec<Handle<'s, W>>,
    admitted: usize,
) -> Result<(), W>
    requires ready { All W.ready jobs.old.items }
    requires none { handles.old.items ≡ [] }
    requires room { vec_len jobs.old ≤ vec_capacity handles.old }
    ensures begun { OnOk result (owed (λ h. h.promise.job.value) handles.new.items ≡ jobs.old.items) }
    ensures refused { IfErr result (λ job. jobs.new.items ++ job ∷ owed (λ h. h.promise.job.value) handles.new.items ≡ jobs.old.items) }
    ensures hear { All (λ h. h.promise.word.now.id ≡ word.now.id) handles.new.items }
    ensures all { OnOk result ((vec_len jobs.new ≡ 0) × (vec_len handles.new ≡ vec_len jobs.old)) }
    ensures rest { OnErr result (vec_len jobs.new + 1 + vec_len handles.new ≡ vec_len jobs.old) }
    ensures room { vec_capacity jobs.new ≡ vec_capacity jobs.old }
    ensures admits { OnOk result (vec_len jobs.old ≤ admitted) }
{
    while let Some(job) = jobs.pop() {
        if handles.len() >= admitted {
            return Err(job);
        }
        match begin(scope, rt, word, job) {
            Ok(handle) => push_within(handles, handle),
            Err(job) => return Err(job),
        }
    }
    Ok(())
}

/// Waits for the end of a thread that was told to go, and answers what its job came to.
fn join_done<'a, R: Threads, W: Work>(
    rt: &R,
    token: &OnceToken<'a, bool>,
    handle: Handle<'a, W>,
) -> W::Out
    requires hears { handle.promise.word.now.id ≡ token.now.of }
    requires goes { token.now.value ≡ true }
    ensures { W.gives handle.entry.promise.job.value result }
{
    let Told { token: heard, fate } = handle.join(rt);
    token.agrees(&heard);
    match fate {
        Fate::Done(result) => result,
        Fate::Kept(_job) => unreachable!(),
    }
}

/// Waits for the end of a thread that was told to keep its job, and answers the job.
fn join_kept<'a, R: Threads, W: Work>(
    rt: &R,
    token: &OnceToken<'a, bool>,
    handle: Handle<'a, W>,
) -> W
    requires hears { handle.promise.word.now.id ≡ token.now.of }
    requires keeps { token.now.value ≡ false }
    ensures { result ≡ handle.entry.promise.job.value }
{
    let Told { token: heard, fate } = handle.join(rt);
    token.agrees(&heard);
    match fate {
        Fate::Kept(job) => job,
        Fate::Done(_result) => unreachable!(),
    }
}

/// What the jobs of threads that were told to go came to, in the order of the jobs.
fn collect<'a, R: Threads, W: Work>(
    rt: &R,
    token: &OnceToken<'a, bool>,
    mut handles: Vec<Handle<'a, W>>,
    mut results: Vec<W::Out>,
) -> Vec<W::Out>
    requires hear { All (λ h. h.promise.word.now.id ≡ token.now.of) handles.items }
    requires go { token.now.value ≡ true }
    requires none { results.items ≡ [] }
    requires room { vec_len handles ≤ vec_capacity results }
    ensures { AllZip W.gives (owed (λ h. h.promise.job.value) handles.entry.items) result.items }
{
    while let Some(handle) = handles.pop() {
        push_within(&mut results, join_done(rt, token, handle));
    }
    results
}

/// The jobs of threads that were told to keep them, behind those that had none.
fn take_back<'a, R: Threads, W: Work>(
    rt: &R,
    token: &OnceToken<'a, bool>,
    mut handles: Vec<Handle<'a, W>>,
    mut jobs: Vec<W>,
) -> Vec<W>
    requires hear { All (λ h. h.promise.word.now.id ≡ token.now.of) handles.items }
    requires keep { token.now.value ≡ false }
    requires room { vec_len jobs + vec_len handles ≤ vec_capacity jobs }
    ensures { result.items ≡ jobs.items ++ owed (λ h. h.promise.job.value) handles.entry.items }
{
    while let Some(handle) = handles.pop() {
        push_within(&mut jobs, join_kept(rt, token, handle));
    }
    jobs
}

/// Starts jobs in a scope. Memory is taken first.
fn start_within<'s, E, R: Threads + Wait + Sync, W: Work + 's>(
    scope: &Scope<'s, E>,
    rt: &'s R,
    word: &'s OnceLock<bool>,
    alloc: Global,
    mut jobs: Vec<W>,
    admitted: usize,
) -> Started<W, W::Out>
    requires { All W.ready jobs.items }
    ensures jobs { Becomes W.gives jobs.items result }
    ensures admits { admitted < vec_len jobs → is_done result ≡ false }
{
    let Ok(mut handles) = Vec::with_capacity(alloc, jobs.len()) else {
        return Started::Memory(jobs);
    };
    let Ok(results) = Vec::with_capacity(alloc, jobs.len()) else {
        return Started::Memory(jobs);
    };
    if jobs.reserve(0).is_err() {
        return Started::Memory(jobs);
    }
    match begin_each(scope, rt, word, &mut jobs, &mut handles, admitted) {
        Ok(()) => {
            let token = word.init(rt, || true);
            if *word.value(&token) {
                return Started::Done(collect(rt, &token, handles, results));
            }
            Started::Refused(take_back(rt, &token, handles, jobs))
        }
        Err(job) => {
            let token = word.init(rt, || false);
            if *word.value(&token) {
                return never(rt);
            }
            push_within(&mut jobs, job);
            Started::Refused(take_back(rt, &token, handles, jobs))
        }
    }
}

/// Starts jobs in threads, each start up to the number that are let through.
pub(crate) fn start_jobs<R: Threads + Wait + Sync, W: Work>(
    rt: &R,
    alloc: Global,
    jobs: Vec<W>,
    admitted: usize,
) -> Started<W, W::Out>
    requires ready { All W.ready jobs.items }
    ensures jobs { Becomes W.gives jobs.items result }
    ensures admits { admitted < vec_len jobs → is_done result ≡ false }
{
    let word = OnceLock::new();
    let spoken = &word;
    thread::scope(
        thread::scope_env(),
        rt,
        move |scope| -> Started<W, W::Out>
            requires { All W.ready jobs.items }
            ensures jobs { Becomes W.gives jobs.items result }
            ensures admits { admitted < vec_len jobs → is_done result ≡ false }
        { start_within(scope, rt, spoken, alloc, jobs, admitted) },
    )
}
