//! Views, the view of an app name, and the base of a view.

ghost use Rattle.std.specs.Prelude.{◌≡◌, ◌≤◌, ◌<◌, ◌+◌, ◌||◌, ℕ, true, false, length, [], IfOk, IfSome, MatchOption, slice_index_or, option_copied, replicate};
ghost use Rattle.std.specs.List.{list_all};
ghost use Rattle.function_table.specs.Groups.{groups_count, is_function};
ghost use Rattle.view_file.specs.Base.{all_listed, base_of, functions_of_app, group_of_start, holds_one};
ghost use Rattle.view_file.specs.Named.{view_named, position_of};
ghost use Rattle.view_file.specs.declared.views.TheConstants.{APPS_MOST};

use fc_numbers::memory::NoMemory;
use fc_numbers::name::Name;
use fc_numbers::places::{GroupNo, ViewNo};
use fc_numbers::spans::place_of;
use function_table::table::Table;
use guest_input::image::Start;
use sqlite_items::Items;
use std::alloc::Global;
use std::marker::Model;

/// The most apps that views may have: views 1 to 15.
pub const APPS_MOST: usize = 15;

/// The functions of one app.
#[derive(Drop)]
pub struct App {
    pub name: Name,
    /// The starts of the functions, in order, each once.
    pub functions: Items<Start>,
}

/// Apps, at most 15. In contracts they are their list.
#[derive(Drop)]
pub struct Apps {
    apps: Items<App>,
}

impl Model for Apps {
    ghost use Rattle.std.specs.Prelude.{List, ◌≤◌, length};
    ghost use Rattle.view_file.specs.declared.views.App.{App};
    ghost use Rattle.view_file.specs.declared.views.TheConstants.{APPS_MOST};

    ghost Value = { List App };

    ghost view = { λ it. it.apps };

    ghost invariant = { λ it. length it.apps ≤ APPS_MOST };
}

impl Apps {
    /// No apps.
    pub fn none(alloc: Global) -> Apps
        ensures { result ≡ [] }
    {
        Apps {
            apps: Items::new(alloc),
        }
    }

    /// These apps, or None where they are too many.
    pub fn of(apps: Items<App>) -> Option<Apps>
        ensures value { MatchOption result (APPS_MOST < length apps) (λ few. few ≡ apps) }
        ensures few { IfSome result (λ few. length few ≤ APPS_MOST) }
    {
        if apps.len() > APPS_MOST {
            return None;
        }
        Some(Apps { apps })
    }

    /// The apps.
    pub fn as_slice(&self) -> &[App]
        ensures value { result.now ≡ self.now }
        ensures few { length self.now ≤ APPS_MOST }
    {
        self.apps.as_slice()
    }

    /// How many apps there are.
    pub fn len(&self) -> usize
        ensures value { result ≡ length self.now }
        ensures few { result ≤ APPS_MOST }
    {
        self.apps.len()
    }
}

/// The views of one kernel text.
#[derive(Drop)]
pub struct Views {
    /// The digest of the kernel's image.
    pub text: [u8; 32],
    /// The starts of the functions that every app may run, in order, each once.
    pub shared: Items<Start>,
    /// The apps in order of their names' bytes, each name once.
    pub apps: Apps,
}

#[inline(never)]
fn named(apps: &[App], name: &[u8]) -> Option<usize>
    ensures place { result ≡ position_of name.now apps.now }
    ensures within { IfSome result (λ at. at < length apps.now) }
{
    apps.iter().position(|app| app.name.bytes() == name)
}

fn filled(alloc: Global, truth: bool, count: usize) -> Result<Vec<bool>, NoMemory>
    ensures { IfOk result (λ truths. truths.items ≡ replicate count truth) }
{
    Ok(vec![in alloc; truth; count]?)
}

fn functions_at(apps: &[App], at: usize) -> &[Start]
    requires { at < length apps.now }
    ensures { result.now ≡ functions_of_app apps.now at }
{
    apps[at].functions.as_slice()
}

/// The group of a function of the table.
fn group_of(table: &Table, at: Start) -> GroupNo
    requires { is_function table.now at ≡ true }
    ensures value { result ≡ group_of_start table.now at }
    ensures within { result < groups_count table.now }
{
    let Some(offset) = table.flat(at) else {
        unreachable!()
    };
    match table.group_of(place_of(table.text(), offset as u64)) {
        Some(group) => group,
        None => unreachable!(),
    }
}

/// Marks the groups that hold one of these functions of the table.
fn mark(groups: &mut Vec<bool>, functions: &[Start], table: &Table)
    requires each { length groups.old.items ≡ groups_count table.now }
    requires listed { list_all (is_function table.now) functions.now ≡ true }
    ensures len { length groups.new.items ≡ length groups.old.items }
    ensures marked { (g : ℕ) → slice_index_or groups.new.items g false
        ≡ (slice_index_or groups.old.items g false || holds_one table.now functions.now g) }
{
    for at in functions {
        let group = group_of(table, *at);
        groups[group.0 as usize] = true;
    }
}

impl Views {
    /// The number of the view of this app name: that of the app of this name, from 1 on, or 0, the full view, where
    /// there is no name or no app of this name.
    #[inline(always)]
    pub fn choose(&self, name: Option<&Name>) -> ViewNo
        ensures value { result ≡ view_named self.now (option_copied name.entry) }
        ensures within { result ≤ length self.now.apps }
    {
        let Some(name) = name else {
            return ViewNo(0);
        };
        match named(self.apps.as_slice(), name.bytes()) {
            Some(at) => ViewNo(at as u8 + 1),
            None => ViewNo(0),
        }
    }

    /// The base of view v: one truth per group, whether the group holds a function listed for the view's app or shared.
    /// The base of the full view is every group.
    pub fn base(&self, alloc: Global, v: ViewNo, table: &Table) -> Result<Vec<bool>, NoMemory>
        requires view { v ≤ length self.now.apps }
        requires listed { list_all (is_function table.now) (all_listed self.now) ≡ true }
        ensures { IfOk result (λ base. base.items ≡ base_of self.now table.now v) }
    {
        let count = table.groups() as usize;
        if v.0 == 0 {
            return Ok(filled(alloc, true, count)?);
        }
        let mut groups = filled(alloc, false, count)?;
        mark(
            &mut groups,
            functions_at(self.apps.as_slice(), v.0 as usize - 1),
            table,
        );
        mark(&mut groups, self.shared.as_slice(), table);
        Ok(groups)
    }
}
