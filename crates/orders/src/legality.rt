//! Laws of legality and of starts, for every model.
ghost use Rattle.std.specs.Prelude.{◌≡◌, ℕ, List, length};
ghost use Rattle.trace.specs.Traces.{Trace, Complete, Prefix, processor_count};
ghost use Rattle.orders.specs.Orders.{Meets, Legal};
ghost use Rattle.orders.specs.Starts.{Standing, StartOf};

use models::model::MemoryModel;

/// Stands for a law: a complete prefix of a complete legal trace is legal.
pub fn prefix_stays_legal<M: MemoryModel>(model: &M)
    ensures { (t u : Trace) → Complete t → Complete u → Prefix t u → Legal (M.meaning model.now) u → Legal (M.meaning model.now) t }
{}

/// Stands for a law: every trace is legal under a model that has no views of it.
pub fn no_views_stay_legal<M: MemoryModel>(model: &M)
    ensures { (t : Trace) → (M.meaning model.now).views (processor_count t) t.variables ≡ 0 → Legal (M.meaning model.now) t }
{}

/// Stands for a law: each start of orders that meet the model stands.
pub fn starts_stand<M: MemoryModel>(model: &M)
    ensures { (t : Trace) (whole orders : List (List ℕ)) (part : List ℕ) → Meets (M.meaning model.now) t whole → StartOf whole orders part → Standing (M.meaning model.now) t orders part }
{}

/// Stands for a law: a start that stands, and has a list for every view, meets the model.
pub fn full_starts_meet<M: MemoryModel>(model: &M)
    ensures { (t : Trace) (orders : List (List ℕ)) (part : List ℕ) → length orders ≡ (M.meaning model.now).views (processor_count t) t.variables → Standing (M.meaning model.now) t orders part → Meets (M.meaning model.now) t orders }
{}
