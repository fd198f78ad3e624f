// Making what draws, and giving its workspace back.
ghost use Rattle.std.specs.Prelude.{◌≡◌, ◌≤◌, vec_len};
ghost use Rattle.solver.specs.Laws.{Fresh};
ghost use Rattle.search.specs.DrawingMeaning.{draws};
ghost use Rattle.search.specs.Room.{open_stop};

use crate::drawing::Drawing;
use crate::posture::Posture;
use crate::searching::Search;
use crate::store::Store;
use rows::Kind;

impl Drawing {
    // With so many leading numbers for each variable: a slot, or a slot and a level.
    pub(crate) fn new(kind: Kind, each: u32, work: Vec<u16>) -> Drawing
        requires one { 1 ≤ each }
        requires two { each ≤ 2 }
        ensures kind { (draws result).kind ≡ kind }
        ensures takes { (draws result).stop ≡ open_stop each kind (vec_len work) }
        ensures fresh { Fresh (draws result) }
        ensures each { result.search.store.each ≡ each }
    {
        Drawing {
            search: Search::new(Store::new(kind, each, work)),
            posture: Posture::Before,
        }
    }

    pub(crate) fn into_workspace(self) -> Vec<u16>
        ensures { result ≡ self.search.store.work }
    {
        let Drawing { search, .. } = self;
        let Search { store, .. } = search;
        store.into_workspace()
    }
}
