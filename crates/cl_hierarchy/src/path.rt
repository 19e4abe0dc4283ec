//! The classes that are being derived for one request.

ghost use Rattle.std.specs.Prelude.{◌≡◌, ◌≢◌, ◌==◌, ◌<◌, ◌++◌, ◌∷◌, [], slice_get, None, OnOk, IfOk, IfErr, IfSome, IsSome, MatchOption, false, length};
ghost use Rattle.std.specs.Option.{option_map};
ghost use Rattle.indexmap.specs.IndexMap.{get, spare};
ghost use Rattle.cl_classfile.specs.Files.{file_of};
ghost use Rattle.cl_model.specs.Classes.{same_class};
ghost use Rattle.cl_model.specs.Frames.{wanted_supertype};
ghost use Rattle.cl_model.specs.Views.{error_of};
ghost use Rattle.cl_hierarchy.specs.Frames.{frame_of};
ghost use Rattle.cl_hierarchy.specs.Kept.{LastAccepts, last_wants};
ghost use Rattle.cl_hierarchy.specs.Paths.{Accepts, Completes, IsPath, FrameStands, at_loader, at_name, fresh, name_of, is_on, misfit_under, sought_class, with_frame};
ghost use Rattle.cl_hierarchy.specs.Repeats.{FitsLast, Goes, RepeatsLast};

use crate::draft::Draft;
use crate::fit::misfit;
use crate::frame::Frame;
use crate::row::ClassRow;
use cl_config::Config;
use cl_model::{Class, ErrorKind, LoaderId, Told};
use cl_names::{Name, Seed};
use indexmap::IndexMap;
use std::alloc::{AllocError, Global};
use std::marker::Model;
use std::mem;
use std::sync::Arc;

/// What became of a supertype that is looked for, which the last class may have accepted before.
#[derive(Drop)]
pub enum Repeated<T: Told> {
    /// It was not; it is still looked for.
    Other,
    /// It is accepted again, and the class waits for the next.
    Waits,
    /// It is accepted again and was the last one: the whole frame of the class.
    Whole(Frame<T>),
}

/// Frames by their classes.
type Frames<T> = IndexMap<Class, Frame<T>, Seed>;

/// The classes that are being derived for one request, each for the sake of the one before it, each at its own loader
/// (JVMS SE 8, 5.3.5, steps 3 and 4). Each waits for a supertype. None stands twice: where a content is told, a path keeps
/// that (`IsFrames` of the rules); else it stands in the condition *absent* of `push` alone.
pub struct Path<T: Told> {
    config: Arc<Config>,
    loader: LoaderId,
    /// The name that is looked for.
    at: Name,
    /// What is being derived, by its class, so that a class met again is told at once.
    frames: Frames<T>,
}

impl<T: Told> Drop for Path<T> {
    fn drop(self) {
        let Path {
            config: _,
            loader: _,
            at: _,
            frames: _,
        } = self;
    }
}

impl<T: Told> Model for Path<T> {
    ghost use Rattle.cl_hierarchy.specs.Kept.{KeepsPath, kept_path};
    ghost use Rattle.cl_hierarchy.specs.Paths.{Pathed};

    ghost Value = { Pathed };

    ghost view = { λ p. kept_path p.config.value p.loader p.at p.frames.entries };

    ghost invariant = { λ p. KeepsPath T.told p.config.value p.loader p.at p.frames.entries };
}

/// The name of a class's first supertype, once there is room for its frame.
fn prepare<T: Told>(frames: &mut Frames<T>, draft: &Draft<T>) -> Result<Name, AllocError>
    requires { IsSome (wanted_supertype (frame_of (fresh draft.now))) }
    ensures name { IfOk result (λ n. n ≡ name_of (wanted_supertype (frame_of (fresh draft.now)))) }
    ensures room { OnOk result (0 < spare frames.new) }
    ensures unchanged { frames.new.entries ≡ frames.old.entries }
{
    frames.reserve(1)?;
    match draft.supertype(0) {
        Some(supertype) => supertype.name.try_clone(*frames.allocator()),
        None => unreachable!(),
    }
}

/// Adds a frame under a class that has none, where there is room.
fn put<T: Told>(frames: &mut Frames<T>, class: Class, frame: Frame<T>)
    requires absent { get same_class frames.old class ≡ None }
    requires room { 0 < spare frames.old }
    ensures { frames.new.entries ≡ frames.old.entries ++ (class, frame) ∷ [] }
{
    match frames.insert(class, frame) {
        Ok(_) => {}
        Err(_) => unreachable!(),
    }
}

/// The last frame accepts the supertype that it wants, of which this loader defined the class: the name of the next, if one
/// is left.
fn accept_last<T: Told>(
    frames: &mut Frames<T>,
    definer: LoaderId,
) -> Result<Option<Name>, AllocError>
    requires { IsSome (last_wants frames.old.entries) }
    ensures accepted { IfOk result (LastAccepts frames.old.entries frames.new.entries definer) }
    ensures unchanged { IfErr result (λ e. frames.new.entries ≡ frames.old.entries) }
{
    let alloc = *frames.allocator();
    match frames.last_mut() {
        Some(frame) => frame.go_on(alloc, definer),
        None => unreachable!(),
    }
}

impl<T: Told> Path<T> {
    /// A path on which no class is derived yet: this loader is asked for this name. It takes no memory.
    pub fn new(alloc: Global, config: Arc<Config>, loader: LoaderId, name: Name) -> Path<T>
        ensures { result ≡ record {
          config = config.value;
          loader = loader;
          name = name;
          frames = [];
        } }
    {
        let frames = IndexMap::with_hasher(alloc, config.seed());
        Path {
            config,
            loader,
            at: name,
            frames,
        }
    }

    /// The configuration.
    pub fn config(&self) -> &Arc<Config>
        ensures config { result.now.value ≡ self.now.config }
        ensures path { IsPath T.told self.now }
    {
        &self.config
    }

    /// The loader that is asked now.
    pub fn at_loader(&self) -> LoaderId
        ensures loader { result ≡ at_loader self.now }
        ensures path { IsPath T.told self.now }
    {
        match self.frames.last() {
            Some((_, frame)) => frame.draft().class().loader,
            None => self.loader,
        }
    }

    /// The name that it is asked for.
    pub fn at_name(&self) -> &Name
        ensures name { result.now ≡ at_name self.now }
        ensures path { IsPath T.told self.now }
    {
        &self.at
    }

    /// How many classes are being derived.
    pub fn len(&self) -> usize
        ensures { result ≡ length self.now.frames }
    {
        self.frames.len()
    }

    /// Whether no class is being derived: what is looked for is the request's own.
    pub fn is_empty(&self) -> bool
        ensures { result ≡ (length self.now.frames == 0) }
    {
        self.frames.is_empty()
    }

    /// Whether a class is being derived.
    pub fn has(&self, class: &Class) -> bool
        ensures { result ≡ is_on self.now class.now }
    {
        self.frames.contains_key(class)
    }

    /// The frames, the first of them first.
    pub fn frame(&self, index: usize) -> Option<&Frame<T>>
        ensures { option_map (λ f. f.now) result ≡ slice_get self.now.frames index }
    {
        let (_, frame) = self.frames.get_index(index)?;
        Some(frame)
    }

    /// The class that is looked for is being derived from now on, and its first supertype is looked for.
    pub fn push(&mut self, draft: Draft<T>) -> Result<(), Draft<T>>
        requires stands { FrameStands self.old.config (at_loader self.old) (at_name self.old)
            (fresh draft) }
        requires absent { is_on self.old draft.class ≡ false }
        ensures pushed { OnOk result (self.new ≡ with_frame self.old (fresh draft)) }
        ensures unchanged { IfErr result (λ d. (self.new ≡ self.old) × (d ≡ draft)) }
    {
        let alloc = *self.frames.allocator();
        let Ok(next) = prepare(&mut self.frames, &draft) else {
            return Err(draft);
        };
        // brings that the draft is its class's, where the search led
        let _ = draft.home();
        let class = Class {
            name: mem::replace(&mut self.at, next),
            loader: draft.class().loader,
        };
        put(&mut self.frames, class, Frame::new(alloc, draft));
        // brings that so many are counted by a `usize`
        let _ = self.frames.len();
        Ok(())
    }

    /// What is wrong with a recorded class as the supertype that is looked for, if anything is; a request's own class fits
    /// always (JVMS SE 8, 5.3.5, steps 3 and 4).
    pub fn misfit(&self, row: &ClassRow<T>) -> Option<ErrorKind>
        ensures { option_map (λ kind. error_of kind row.now.class) result
            ≡ misfit_under self.now.frames row.now.class (file_of row.now.file) }
    {
        let (_, frame) = self.frames.last()?;
        let wanted = frame.next_supertype()?;
        misfit(frame.draft().class(), wanted.role, row.class(), row.file())
    }

    /// The last class accepts the supertype that is looked for, as it is recorded. Where that was the last one, the class is
    /// derived no longer, and its frame comes back with all its supertypes.
    pub fn accept(&mut self, row: &ClassRow<T>) -> Result<Option<Frame<T>>, AllocError>
        requires waits { self.old.frames ≢ [] }
        requires name { row.now.class.name ≡ at_name self.old }
        requires fits { misfit_under self.old.frames row.now.class (file_of row.now.file) ≡ None }
        ensures accepted { IfOk result
            (λ o. MatchOption o (Accepts self.old self.new row.now.class.loader)
            (λ x. Completes self.old self.new row.now.class.loader x)) }
        ensures unchanged { IfErr result (λ e. self.new ≡ self.old) }
    {
        self.accept_as(row.class().loader)
    }

    /// The last class accepts the supertype that is looked for, where it accepted that one before: the file names it again. It
    /// asks nobody again, since what a loader recorded stays so, and fits in the same role as before (JVMS SE 8, 5.3, 5.3.5).
    pub fn accept_if_repeated(&mut self) -> Result<Repeated<T>, AllocError>
        ensures goes { IfOk result (Goes self.old self.new) }
        ensures path { IsPath T.told self.old }
        ensures unchanged { IfErr result (λ e. self.new ≡ self.old) }
    {
        match self.definer_if_repeated() {
            None => Ok(Repeated::Other),
            Some(definer) => match self.accept_as(definer)? {
                None => Ok(Repeated::Waits),
                Some(whole) => Ok(Repeated::Whole(whole)),
            },
        }
    }

    /// The loader that defined the class of the supertype that is looked for, where the last class accepted that one before.
    fn definer_if_repeated(&self) -> Option<LoaderId>
        ensures repeats { IfSome result (RepeatsLast self.now) }
        ensures path { IsPath T.told self.now }
    {
        let (_, frame) = self.frames.last()?;
        frame.definer_if_repeated()
    }

    /// The last class accepts the supertype that is looked for, of which this loader defined the class.
    fn accept_as(&mut self, definer: LoaderId) -> Result<Option<Frame<T>>, AllocError>
        requires waits { self.old.frames ≢ [] }
        requires fits { FitsLast T.told self.old definer }
        ensures accepted { IfOk result (λ o. MatchOption o (Accepts self.old self.new definer)
            (λ x. Completes self.old self.new definer x)) }
        ensures unchanged { IfErr result (λ e. self.new ≡ self.old) }
    {
        match accept_last(&mut self.frames, definer)? {
            Some(next) => {
                self.at = next;
                Ok(None)
            }
            None => match self.frames.pop() {
                Some((class, frame)) => {
                    self.at = class.name;
                    Ok(Some(frame))
                }
                None => unreachable!(),
            },
        }
    }

    /// What is looked for, as a class of the loader that is asked.
    pub fn into_class(self) -> Class
        ensures { result ≡ sought_class self }
    {
        let loader = self.at_loader();
        let Path {
            config: _,
            loader: _,
            at: name,
            frames: _,
        } = self;
        Class { name, loader }
    }
}
