//! Each function holds one theorem in its contract.
ghost use Rattle.semantics.specs.Settling.{UntilSettles, GloballySettles};
ghost use Rattle.semantics.specs.Truth.{SetsAreTruth};
ghost use Rattle.semantics.specs.AccessLaws.{AccessTransitive, AccessEuclidean, AccessShiftReflexive, CommitmentWithoutAccess, FulfilmentCommits, FulfilmentOnlyOfCommitments};
ghost use Rattle.semantics.specs.Resolving.{QuerySetsAreTruth};
ghost use Rattle.semantics.specs.Roads.{TwoRoads};
ghost use Rattle.semantics.specs.Evidence.{EvidenceWhereDue};
ghost use Rattle.semantics.specs.ReadBack.{QueriesReadBack, OnlyQueriesRead, ReductionsReadBack};
ghost use Rattle.semantics.specs.Requests.{LogsAreRuns};
ghost use Rattle.semantics.specs.RunLaws.{RunsAgree, RunsShow, RunsAccount};
ghost use Rattle.semantics.specs.Undoing.{EditsUndone};
ghost use Rattle.semantics.specs.SheetsRead.{OnlySheetsRead, SheetsReadBack, TextsDetermine, TextsShort};
ghost use Rattle.semantics.specs.Worked.{Worked};
ghost use Rattle.semantics.specs.OrderExamples.{OrderExamples};

pub fn until_settles_stands()
    ensures { UntilSettles }
{}

pub fn globally_settles_stands()
    ensures { GloballySettles }
{}

pub fn sets_are_truth_stands()
    ensures { SetsAreTruth }
{}

pub fn access_transitive_stands()
    ensures { AccessTransitive }
{}

pub fn access_euclidean_stands()
    ensures { AccessEuclidean }
{}

pub fn access_shift_reflexive_stands()
    ensures { AccessShiftReflexive }
{}

pub fn commitment_without_access_stands()
    ensures { CommitmentWithoutAccess }
{}

pub fn fulfilment_commits_stands()
    ensures { FulfilmentCommits }
{}

pub fn fulfilment_only_of_commitments_stands()
    ensures { FulfilmentOnlyOfCommitments }
{}

pub fn query_sets_are_truth_stands()
    ensures { QuerySetsAreTruth }
{}

pub fn two_roads_stands()
    ensures { TwoRoads }
{}

pub fn evidence_where_due_stands()
    ensures { EvidenceWhereDue }
{}

pub fn queries_read_back_stands()
    ensures { QueriesReadBack }
{}

pub fn only_queries_read_stands()
    ensures { OnlyQueriesRead }
{}

pub fn reductions_read_back_stands()
    ensures { ReductionsReadBack }
{}

pub fn runs_agree_stands()
    ensures { RunsAgree }
{}

pub fn runs_show_stands()
    ensures { RunsShow }
{}

pub fn runs_account_stands()
    ensures { RunsAccount }
{}

pub fn only_sheets_read_stands()
    ensures { OnlySheetsRead }
{}

pub fn sheets_read_back_stands()
    ensures { SheetsReadBack }
{}

pub fn texts_determine_stands()
    ensures { TextsDetermine }
{}

pub fn texts_short_stands()
    ensures { TextsShort }
{}

pub fn worked_example_stands()
    ensures { Worked }
{}

pub fn edits_undone_stands()
    ensures { EditsUndone }
{}

pub fn logs_are_runs_stands()
    ensures { LogsAreRuns }
{}

pub fn order_examples_stands()
    ensures { OrderExamples }
{}
