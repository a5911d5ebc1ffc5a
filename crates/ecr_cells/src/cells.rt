// The cells of all sites.
ghost use Rattle.std.specs.Prelude.{◌≡◌, IfOk, OnOk, OnErr};
ghost use Rattle.ecr_model.specs.registry.Scripts.{fresh};
ghost use Rattle.ecr_cells.specs.Deeds.{ask_of, told_of, FitsDeed, HasContents};
ghost use Rattle.ecr_cells.specs.Desks.{Adds, AreKept, HasCells, Rests, Turns, world_of};
ghost use Rattle.ecr_cells.specs.SiteCells.{site_of_cell};

use crate::deed::{Deed, Done};
use crate::site_cells::SiteCells;
use ecr_model::{CellKey, Limits, Listed, Mem, Place, SiteId};
use std::alloc::Global;
use std::collections::BTreeMap;

/// The cells of each site.
pub(crate) type Cells = BTreeMap<SiteId, SiteCells>;

/// The cells of these sites, with no name.
pub(crate) fn cells_of(alloc: Global, served: &Listed<SiteId>, limits: Limits) -> Result<Cells, Mem>
    ensures kept { IfOk result (λ cells. AreKept served.now limits cells.entries) }
    ensures fresh { IfOk result (λ cells. world_of cells.entries ≡ fresh) }
{
    let mut cells = BTreeMap::new(alloc);
    for site in served.as_slice() {
        add(&mut cells, alloc, site, served, limits)?;
    }
    Ok(cells)
}

/// A copy of the site.
pub(crate) fn copy_of(site: &SiteId) -> Result<SiteId, Mem>
    ensures { IfOk result (λ copy. copy ≡ site.now) }
{
    site.clone()
}

// Adds the site, with no name.
fn add(
    cells: &mut Cells,
    alloc: Global,
    site: &SiteId,
    served: &Listed<SiteId>,
    limits: Limits,
) -> Result<(), Mem>
    ensures { OnOk result (Adds cells.old.entries cells.new.entries site.now served.now limits) }
{
    let sites = served.clone()?.into_vec();
    let added = SiteCells::new(alloc, site.clone()?, sites, limits);
    cells.insert(site.clone()?, added)?;
    Ok(())
}

/// Makes the next turn in a cell of a served site. Without memory no journal changed.
pub(crate) fn make(
    cells: &mut Cells,
    alloc: Global,
    cell: CellKey,
    deed: Deed,
) -> Result<(Done, Place), Mem>
    requires served { HasCells cells.old.entries (site_of_cell cell) }
    requires fits { FitsDeed deed }
    ensures turned { IfOk result
        (λ t. Turns cells.old.entries cells.new.entries cell (ask_of deed) (told_of t.0) t.1) }
    ensures contents { IfOk result (λ t. HasContents t.0) }
    ensures err { OnErr result (Rests cells.old.entries cells.new.entries (site_of_cell cell)) }
{
    match cells.get_mut(site_of(&cell)) {
        Some(site) => site.make(alloc, cell, deed),
        None => unreachable!(),
    }
}

// The site of a cell.
fn site_of(cell: &CellKey) -> &SiteId
    ensures { result.now ≡ site_of_cell cell.now }
{
    match cell {
        CellKey::Directory(site) => site,
        CellKey::Repository(key) => &key.site,
    }
}
