//! Theorems about every schedule, each the contract of a function that does nothing.
ghost use Rattle.std.specs.Prelude.{ℕ, List, Option, [], ◌∷◌, ◌++◌};
ghost use Rattle.table_core.specs.Calls.{Call};
ghost use Rattle.table_terms.specs.Capacities.{IsFirstCapacity};
ghost use Rattle.table_core.specs.Generations.{Table};
ghost use Rattle.table_core.specs.Machine.{World, Act, acts, happens, finishes};
ghost use Rattle.table_core.specs.Replies.{Reply, Finished, ReplyPlaced, ReplyRefused, ReplySome, ReplyNone, ReplyLen, ReplyWalk};
ghost use Rattle.table_core.specs.Steps.{Step, OnlyStep, LockStays};
ghost use Rattle.table_core.specs.Values.{ValuesStay, KeptIsPlaced, PlacedGrows, OwnAnswers, ToldOnce, ToldAtEnd, RefusalCauses, LengthsBetween, PlacedAreCounted, WalksWhole, GrowsAlone, FewBuckets, LookupsReadFew, LoadsOnce};
ghost use Rattle.table_core.specs.Law.{Law};
ghost use Rattle.table_core.specs.Lists.{Right, OneHistory, InOrder, PlacedApart, NoneRefusedInVain, Classes, SameClasses};
ghost use Rattle.table_core.specs.Worked.{IsWorked, LooksForWhatComes, say, all_placed, lost_to_equal, told_lost_to_equal, lost_to_other, told_lost_to_other, refused_put, told_refused_put, uncounted, late_none, told_late_none, stands_late_none, shared_lock, double_growth, two_growers, starts_again, told_starts_again, refused_first, empty_walk, short_walk, right_round, told_right_round, past_the_end, told_past_the_end, other_bits};
ghost use Rattle.table_core.specs.declared.call.Answer.{Answer};
ghost use Rattle.table_core.specs.declared.call.CallState.{CallState};
ghost use Rattle.table_core.specs.declared.call.Phase.{Phase};
ghost use Rattle.table_core.specs.declared.event.Event.{Event};

/// States that the machine takes exactly the steps of the table of events, and that the holders of the lock change only if a call
/// takes or releases it.
pub fn events_are_steps()
    ensures step { (w : World) (x : Event) → Step w x (acts w x) (happens w x) (finishes w x) }
    ensures only_step { (w : World) (x : Event) (a : Act) (v : World) (r : Option Finished)
        → OnlyStep w x a v r }
    ensures lock_stays { (w : World) (c : Call) (p : Phase) (x : Event) (a : Answer) (s : CallState)
        (list : List ℕ) (t : Table) (o : Option Reply) → LockStays w c p x a s list t o }
{}

/// States what holds of every schedule, whatever the closures answer.
pub fn schedules_keep_values()
    ensures values_stay { (f : ℕ) (s : List Event) → IsFirstCapacity f → ValuesStay f s }
    ensures kept_is_placed { (f : ℕ) (s : List Event) → IsFirstCapacity f → KeptIsPlaced f s }
    ensures placed_grows { (f : ℕ) (s more : List Event) → IsFirstCapacity f
        → PlacedGrows f s more }
    ensures own_answers { (f : ℕ) (s : List Event) (x : Event) (r : Finished) → IsFirstCapacity f
        → OwnAnswers f s x r }
    ensures told_once { (f : ℕ) (s : List Event) (n : ℕ) → IsFirstCapacity f → ToldOnce f s n }
    ensures told_at_end { (f : ℕ) (s : List Event) (n : ℕ) → IsFirstCapacity f → ToldAtEnd f s n }
    ensures refusal_causes { (f : ℕ) (s : List Event) (x : Event) (n v : ℕ) → IsFirstCapacity f
        → RefusalCauses f s x n v }
    ensures lengths_between { (f : ℕ) (s : List Event) (x : Event) (n k : ℕ) → IsFirstCapacity f
        → LengthsBetween f s x n k }
    ensures placed_are_counted { (f : ℕ) (s : List Event) → IsFirstCapacity f
        → PlacedAreCounted f s }
    ensures walks_whole { (f : ℕ) (s : List Event) (x : Event) (n : ℕ) (list : List ℕ)
        → IsFirstCapacity f → WalksWhole f s x n list }
    ensures grows_alone { (f : ℕ) (s : List Event) (n : ℕ) (c : Call) → IsFirstCapacity f
        → GrowsAlone f s n c }
    ensures few_buckets { (f : ℕ) (s : List Event) → IsFirstCapacity f → FewBuckets f s }
    ensures lookups_read_few { (f : ℕ) (s : List Event) (n h : ℕ) (more : List Event)
        → IsFirstCapacity f → LookupsReadFew f s n h more }
    ensures loads_once { (f : ℕ) (s : List Event) (n g : ℕ) → IsFirstCapacity f
        → LoadsOnce f s n g }
{}

/// States what holds of every lawful schedule: it behaves as a growing list without equal entries.
pub fn schedules_are_lists()
    ensures right { (l : Law) (f : ℕ) (s : List Event) (x : Event) (r : Finished)
        → IsFirstCapacity f → Right l f s x r }
    ensures one_history { (l : Law) (f : ℕ) (s : List Event) → IsFirstCapacity f
        → OneHistory l f s }
    ensures in_order { (f : ℕ) (s more : List Event) → IsFirstCapacity f → InOrder f s more }
    ensures placed_apart { (l : Law) (f : ℕ) (s : List Event) → IsFirstCapacity f
        → PlacedApart l f s }
    ensures none_refused_in_vain { (l : Law) (f : ℕ) (s : List Event) (n v h : ℕ)
        (more : List Event) (x : Event) (back : ℕ) → IsFirstCapacity f
        → NoneRefusedInVain l f s n v h more x back }
    ensures classes { (l : Law) (f : ℕ) (s : List Event) → IsFirstCapacity f → Classes l f s }
    ensures same_classes { (l : Law) (f : ℕ) (s : List Event) (k : Law) (g : ℕ) (t : List Event)
        → IsFirstCapacity f → IsFirstCapacity g → SameClasses l f s k g t }
{}

/// States facts of worked schedules: the replies of their calls, the order of these in the one history, the number of buckets
/// that they leave, and that each is lawful for some law.
pub fn worked_schedules()
    ensures lost_to_equal { IsWorked 16 lost_to_equal told_lost_to_equal told_lost_to_equal 16 }
    ensures larger_first { IsWorked 32 lost_to_equal told_lost_to_equal told_lost_to_equal 32 }
    ensures lost_to_other { IsWorked 16 lost_to_other told_lost_to_other told_lost_to_other 16 }
    ensures refused_put { IsWorked 16 refused_put told_refused_put told_refused_put 16 }
    ensures uncounted { IsWorked 16 uncounted (say 3 (ReplyLen 0) ∷ say 1 (ReplyPlaced 10) ∷ [])
        (say 1 (ReplyPlaced 10) ∷ []) 16 }
    ensures late_none { IsWorked 16 late_none told_late_none stands_late_none 48 }
    ensures looks_for_what_comes { LooksForWhatComes }
    ensures shared_lock { IsWorked 16 shared_lock (say 1 (ReplyPlaced 10) ∷ [])
        (say 1 (ReplyPlaced 10) ∷ []) 16 }
    ensures double_growth { IsWorked 16 double_growth (all_placed 1 18) (all_placed 1 18) 112 }
    ensures two_growers { IsWorked 16 two_growers (all_placed 1 8) (all_placed 1 8) 48 }
    ensures starts_again { IsWorked 16 starts_again told_starts_again told_starts_again 48 }
    ensures refused_first { IsWorked 16 refused_first
        (say 1 (ReplyRefused 10) ∷ say 2 (ReplyLen 0) ∷ []) (say 1 (ReplyRefused 10) ∷ []) 0 }
    ensures empty_walk { IsWorked 16 empty_walk (say 1 (ReplyWalk []) ∷ []) [] 0 }
    ensures short_walk { IsWorked 16 short_walk (told_lost_to_equal
        ++ (say 3 (ReplyWalk (10 ∷ [])) ∷ [])) told_lost_to_equal 16 }
    ensures right_round { IsWorked 16 right_round told_right_round
        (all_placed 1 16 ++ (say 19 ReplyNone ∷ [])) 16 }
    ensures past_the_end { IsWorked 16 past_the_end told_past_the_end
        (all_placed 1 8 ++ (say 21 (ReplySome 10) ∷ [])) 48 }
    ensures other_bits { IsWorked 16 other_bits (say 1 (ReplyPlaced 10) ∷ say 2 ReplyNone ∷ [])
        (say 1 (ReplyPlaced 10) ∷ say 2 ReplyNone ∷ []) 16 }
{}
