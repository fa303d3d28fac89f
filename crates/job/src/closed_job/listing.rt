ghost use Rattle.std.specs.Prelude.{◌≡◌, ◌++◌, true, length, take, drop, is_ok, if◌then◌else◌, IfOk};
ghost use Rattle.plan.specs.Listings.{listing};
ghost use Rattle.book.specs.Calls.{list};
ghost use Rattle.book.specs.Answers.{answer};
ghost use Rattle.book.specs.Histories.{fed};
ghost use Rattle.promise.specs.Promises.{Stands, ListingsStand};
ghost use Rattle.job.specs.Jobs.{closed_book};

use crate::closed_job::ClosedJob;
use circuit::operation::Operation;
use lister::write_listing;
use refusal::Refusal;
use register::{GateRegister, TellingRegister};
use route::rule::RouteRule;

impl ClosedJob {
    // Writes the listing to the first places, or refuses. Apart from `list`, so that what is promised of a listing is proved of one value.
    fn write_operations<R: RouteRule>(
        &self,
        rule: &R,
        places: &mut [Operation],
    ) -> Result<usize, Refusal>
        ensures answer { result ≡ answer (closed_book self.now) (list (R.RouteRule.route rule.now) (length places.old)) }
        ensures written { places.new ≡ (if is_ok result then listing (closed_book self.now).plan (R.RouteRule.route rule.now) ++ drop (length (listing (closed_book self.now).plan (R.RouteRule.route rule.now))) places.old else places.old) }
    {
        let (layout, gates) = self.parts();
        write_listing(rule, &layout, gates, places)
    }

    // Writes the listing to the first places: the operations of all gates, in order of start, first cell and the other fields; answers their count. Refused is what judging refuses, then fewer places than operations, and nothing is written then.
    // G and T are the registers that will run the listing. It stands on them: in every allowed order it ends as the direct run of the program ends. So does every listing of every history of a job, under every lawful rule.
    #[tactic(auto, using(crate::proofs::Listings::nothing_written))]
    pub fn list<R: RouteRule, G: GateRegister, T: TellingRegister>(
        &self,
        rule: &R,
        places: &mut [Operation],
    ) -> Result<usize, Refusal>
        ensures answer { result ≡ answer (closed_book self.now) (list (R.RouteRule.route rule.now) (length places.old)) }
        ensures book { closed_book self.now ≡ fed (closed_book self.now) (list (R.RouteRule.route rule.now) (length places.old)) }
        ensures written { places.new ≡ (if is_ok result then listing (closed_book self.now).plan (R.RouteRule.route rule.now) ++ drop (length (listing (closed_book self.now).plan (R.RouteRule.route rule.now))) places.old else places.old) }
        ensures stands { IfOk result (λ n. Stands G.GateRegister.model G.GateRegister.most T.GateRegister.model T.GateRegister.most T.GateRegister.state T.TellingRegister.mark T.TellingRegister.numbers (closed_book self.now) (R.RouteRule.route rule.now) (take n places.new)) }
        ensures law { ListingsStand G.GateRegister.model G.GateRegister.most T.GateRegister.model T.GateRegister.most T.GateRegister.state T.TellingRegister.mark T.TellingRegister.numbers }
    {
        self.write_operations(rule, places)
    }
}
