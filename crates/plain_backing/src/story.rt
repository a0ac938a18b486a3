// What calls make of the story that a backing in memory tells of its journal.

ghost use Rattle.std.specs.Prelude.{◌≡◌, ◌∷◌, []};
ghost use Rattle.fs_model.specs.Backing.{page_puts};
ghost use Rattle.fs_model.specs.Journal.{base_head};
ghost use Rattle.plain_backing.specs.Story.{opened_story, failed_puts, lost_by, with_all, synced_story, begun, ended_story};

use crate::Tree;
use fs_model::{Group, PageNode, StoreFault};
use std::marker::Model;
use std::snapshot::Snapshot;
use told_value::{Told, tell_of};

/// None is ever made: it is what contracts see of one that is told, the record `Story` of `specs/Story.antt`.
pub(crate) struct Story {
    _none: (),
}

impl Model for Story {
    ghost use Rattle.std.specs.Prelude.{[]};
    ghost use Rattle.plain_backing.specs.Story.{Story as StoryTold, opened_story};

    ghost Value = { StoryTold };

    ghost view = { λ _. opened_story (record { inodes = []; blocks = []; entries = []; highest = 0 }) };
}

/// The story of a tree on which nothing was put.
pub(crate) fn open_story(tree: &Tree) -> Told<Story>
    ensures { result.value ≡ opened_story tree.now }
{
    tell_of(tree)
}

/// Puts a group to the base, without counting it.
pub(crate) fn add_group(story: &mut Told<Story>, group: &Group)
    ensures { story.new.value ≡ failed_puts story.old.value ((base_head, group.now) ∷ []) }
{
    *story = tell_of(&(Snapshot::of(story), Snapshot::of(group)));
}

/// Puts a page's two nodes, without counting them.
pub(crate) fn add_page(story: &mut Told<Story>, page: &PageNode)
    ensures { story.new.value ≡ failed_puts story.old.value (page_puts page.now) }
{
    *story = tell_of(&(Snapshot::of(story), Snapshot::of(page)));
}

/// Counts all groups: the tree has them.
pub(crate) fn count_all(story: &mut Told<Story>)
    ensures { story.new.value ≡ with_all story.old.value }
{
    *story = tell_of(&Snapshot::of(story));
}

/// Puts a group without counting it, if the volume failed.
pub(crate) fn lose_group(story: &mut Told<Story>, group: &Group, fault: &StoreFault)
    ensures { story.new.value ≡ failed_puts story.old.value (lost_by fault.now ((base_head, group.now) ∷ [])) }
{
    if let StoreFault::Volume { count: _ } = fault {
        add_group(story, group);
    }
}

/// Puts a page's two nodes without counting them, if the volume failed.
pub(crate) fn lose_page(story: &mut Told<Story>, page: &PageNode, fault: &StoreFault)
    ensures { story.new.value ≡ failed_puts story.old.value (lost_by fault.now (page_puts page.now)) }
{
    if let StoreFault::Volume { count: _ } = fault {
        add_page(story, page);
    }
}

/// All groups are synced.
pub(crate) fn sync_story(story: &mut Told<Story>)
    ensures { story.new.value ≡ synced_story story.old.value }
{
    *story = tell_of(&Snapshot::of(story));
}

/// A commit begins on this tree.
pub(crate) fn begin_story(story: &mut Told<Story>, tree: &Tree)
    ensures { story.new.value ≡ begun story.old.value tree.now }
{
    *story = tell_of(&(Snapshot::of(story), Snapshot::of(tree)));
}

/// The commit that runs ends.
pub(crate) fn end_story(story: &mut Told<Story>)
    ensures { story.new.value ≡ ended_story story.old.value }
{
    *story = tell_of(&Snapshot::of(story));
}
