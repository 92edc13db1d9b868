//! The definitions that the contracts of a regular expression engine speak of; they stand in `specs/`.
//!
//! No code of the engine is here: each function has an empty body, and its contract is a law about the definitions.
#![tactic(auto)]

ghost use Rattle.bites_spec.specs.Class.{ListsOnce};
ghost use Rattle.bites_spec.specs.Laws.{MatchIsParse, FirstRunIsFirst, FirstRunIsOne, RunsAreParses, PlainRunsAreSimple, FirstRunIsFound, LeastEndIsLeast, ParsesAreListed, LongestIsFound, ParsesEndAtMatches, StaticCountIsLeast, FoundIsSome, AnsweredKeepsLength, ReplacesOnce};
ghost use Rattle.bites_spec.specs.RunLaws.{LongestRunIsLongest, LongestRunIsOne, SlotsAreWritten, Group0IsSpan, RunsAreParsesInOrder, NothingPastTheEnd, NoFaultIsWellFormed, RunLies, ChosenRunLies, RunsBeginAlike, LeastRunEndIsAtMost, StaticLenParticipates};
ghost use Rattle.bites_spec.specs.FoundLaws.{StartsFind, FoundLies, AnswersBeginAlike, LeastEndIsAtMost, StaticLenIsLeast};
ghost use Rattle.bites_spec.specs.RegexLaws.{RunIsFound, FindsSome, AnswersHaveGroup0};
ghost use Rattle.bites_spec.specs.SpanLaws.{SuccessiveIsOne, SuccessiveGoesOn, SuccessiveIsMapped, SpansGrow, PiecesAndMatches, ReplacedAlternates, ReplacedIsJoined};
ghost use Rattle.bites_spec.specs.Captured.{SlotsAreGroups, SlotsAreFound};
ghost use Rattle.bites_spec.specs.Iteration.{CapturesHaveSpans};
ghost use Rattle.bites_spec.specs.AllMatches.{FindsAreSuccessive, GroupsAreSuccessive, CapturesAreMatches, NoneIsLeftOut, MatchesStandApart, MatchesHaveBorders};
ghost use Rattle.bites_spec.specs.Refutations.{BoundsAreReached, SearchesReachBounds, BoundsRefuse, VisitsRefuse, AnsweredRefuses, FoundRefuses, PreferredRefuses, LeftmostRefuses, SpansRefuse, LeavingOutRefuses, BordersRefuse, ParticipantsRefuse, ItsGroupsRefuse, AppendsRefuse};
ghost use Rattle.bites_spec.specs.CallerLaws.{NamesAreAscii, StartIsPlace, StartIsAlone, SearchesHaveStarts, AnchoredIsRead, AnchoredIsBegun, AnchoredIsWhole, AnchoredMatchesWhole, LiteralIsRead, UnionsAreListed, RangesAreListed, EachParticipates};
ghost use Rattle.bites_spec.specs.Refused.{IterationsEnd};
ghost use Rattle.bites_spec.specs.GrammarLaws.{ListsAll, ReadIsCompilable, ReadsOnce, FaultsOnce, FaultsHavePlaces, PlacesOnce, RefusedHasNoTree, ReadOrRefused, ReaderReads, ReaderRefuses, ReaderRefusesAt, StuckBracketIsNotRead};
ghost use Rattle.bites_spec.specs.GroupLaws.{OpenedOnce, OpenedAreKept, LeftAreKept, DroppedHaveNoPlace, KeptAnswerAlike};
ghost use Rattle.bites_spec.specs.RangesOf.{RangesOfList};
ghost use Rattle.bites_spec.specs.EscapedLaws.{EscapedIsText, EscapedIsRead, EscapedIsFlat, EscapedIsAccepted, EscapedMatchesText, EscapedFindsText};
ghost use Rattle.bites_spec.specs.FullLaws.{FullRunIsFound, FullSlotsAreGroups, FullFindsSome, FullIsFound};
ghost use Rattle.bites_spec.specs.TextLaws.{PlacesAreBorders, PiecesEndAtBorders, MatchesEndAtBorders, GroupsHaveBorders, FoundHasBorders, LeastEndIsBorder};
ghost use Rattle.bites_spec.specs.TemplateLaws.{CutsOnce, ExpandsOnce, PlainStandsForItself, TextsHaveNames, NumbersAreFirst};

pub fn match_is_parse()
    ensures { MatchIsParse }
{}

pub fn first_run_is_first()
    ensures { FirstRunIsFirst }
{}

pub fn first_run_is_one()
    ensures { FirstRunIsOne }
{}

pub fn longest_run_is_longest()
    ensures { LongestRunIsLongest }
{}

pub fn longest_run_is_one()
    ensures { LongestRunIsOne }
{}

pub fn slots_are_written()
    ensures { SlotsAreWritten }
{}

pub fn group_0_is_span()
    ensures { Group0IsSpan }
{}

pub fn no_fault_is_well_formed()
    ensures { NoFaultIsWellFormed }
{}

pub fn nothing_past_the_end()
    ensures { NothingPastTheEnd }
{}

pub fn run_lies()
    ensures { RunLies }
{}

pub fn chosen_run_lies()
    ensures { ChosenRunLies }
{}

pub fn runs_begin_alike()
    ensures { RunsBeginAlike }
{}

pub fn least_run_end_is_at_most()
    ensures { LeastRunEndIsAtMost }
{}

pub fn runs_are_parses()
    ensures { RunsAreParses }
{}

pub fn runs_are_parses_in_order()
    ensures { RunsAreParsesInOrder }
{}

pub fn plain_runs_are_simple()
    ensures { PlainRunsAreSimple }
{}

pub fn first_run_is_found()
    ensures { FirstRunIsFound }
{}

pub fn least_end_is_least()
    ensures { LeastEndIsLeast }
{}

pub fn parses_are_listed()
    ensures { ParsesAreListed }
{}

pub fn longest_is_found()
    ensures { LongestIsFound }
{}

pub fn ranges_of_a_set_are_unique()
    ensures { ListsOnce }
{}

pub fn parses_end_at_matches()
    ensures { ParsesEndAtMatches }
{}

pub fn static_count_is_least()
    ensures { StaticCountIsLeast }
{}

pub fn static_len_is_least()
    ensures { StaticLenIsLeast }
{}

pub fn static_len_participates()
    ensures { StaticLenParticipates }
{}

pub fn successive_answers_are_one_list<B>()
    ensures { SuccessiveIsOne B }
{}

pub fn successive_answers_go_on<B>()
    ensures { SuccessiveGoesOn B }
{}

pub fn successive_answers_are_mapped<B, C>()
    ensures { SuccessiveIsMapped B C }
{}

pub fn spans_grow<B>()
    ensures { SpansGrow B }
{}

pub fn pieces_and_matches()
    ensures { PiecesAndMatches }
{}

pub fn replaced_alternates()
    ensures { ReplacedAlternates }
{}

pub fn replaced_is_joined()
    ensures { ReplacedIsJoined }
{}

pub fn every_set_has_ranges()
    ensures { ListsAll }
{}

pub fn ranges_of_a_set_list_it()
    ensures { RangesOfList }
{}

pub fn read_trees_are_compilable()
    ensures { ReadIsCompilable }
{}

pub fn patterns_have_one_tree()
    ensures { ReadsOnce }
{}

pub fn patterns_have_one_message()
    ensures { FaultsOnce }
{}

pub fn refused_patterns_have_no_tree()
    ensures { RefusedHasNoTree }
{}

pub fn patterns_are_read_or_refused()
    ensures { ReadOrRefused }
{}

pub fn reader_reads()
    ensures { ReaderReads }
{}

pub fn reader_refuses()
    ensures { ReaderRefuses }
{}

pub fn faults_have_places()
    ensures { FaultsHavePlaces }
{}

pub fn patterns_have_one_offset()
    ensures { PlacesOnce }
{}

pub fn reader_refuses_at()
    ensures { ReaderRefusesAt }
{}

pub fn stuck_brackets_are_not_read()
    ensures { StuckBracketIsNotRead }
{}

pub fn run_is_found()
    ensures { RunIsFound }
{}

pub fn finds_some()
    ensures { FindsSome }
{}

pub fn starts_find()
    ensures { StartsFind }
{}

pub fn found_lies()
    ensures { FoundLies }
{}

pub fn answers_begin_alike()
    ensures { AnswersBeginAlike }
{}

pub fn least_end_is_at_most()
    ensures { LeastEndIsAtMost }
{}

pub fn found_is_some()
    ensures { FoundIsSome }
{}

pub fn answers_keep_their_length()
    ensures { AnsweredKeepsLength }
{}

pub fn replacers_replace_once<S, C>()
    ensures { ReplacesOnce S C }
{}

pub fn groups_are_opened_once()
    ensures { OpenedOnce }
{}

pub fn opened_groups_are_kept()
    ensures { OpenedAreKept }
{}

pub fn left_groups_are_kept()
    ensures { LeftAreKept }
{}

pub fn dropped_groups_have_no_place()
    ensures { DroppedHaveNoPlace }
{}

pub fn kept_answer_alike()
    ensures { KeptAnswerAlike }
{}

pub fn iterations_end<S, B, C, E>()
    ensures { IterationsEnd S B C E }
{}

pub fn templates_are_cut_in_one_way()
    ensures { CutsOnce }
{}

pub fn templates_have_one_text()
    ensures { ExpandsOnce }
{}

pub fn plain_templates_stand_for_themselves()
    ensures { PlainStandsForItself }
{}

pub fn names_in_texts_are_texts()
    ensures { TextsHaveNames }
{}

pub fn slots_are_groups()
    ensures { SlotsAreGroups }
{}

pub fn slots_are_found()
    ensures { SlotsAreFound }
{}

pub fn captures_have_spans()
    ensures { CapturesHaveSpans }
{}

pub fn places_of_texts_are_borders()
    ensures { PlacesAreBorders }
{}

pub fn pieces_of_texts_end_at_borders()
    ensures { PiecesEndAtBorders }
{}

pub fn matches_in_texts_end_at_borders()
    ensures { MatchesEndAtBorders }
{}

pub fn groups_in_texts_have_borders()
    ensures { GroupsHaveBorders }
{}

pub fn what_is_found_in_texts_has_borders()
    ensures { FoundHasBorders }
{}

pub fn least_ends_in_texts_are_borders()
    ensures { LeastEndIsBorder }
{}

pub fn escaped_texts_are_read()
    ensures { EscapedIsRead }
{}

pub fn escaped_texts_are_flat()
    ensures { EscapedIsFlat }
{}

pub fn escaped_texts_are_accepted()
    ensures { EscapedIsAccepted }
{}

pub fn escaped_texts_match_their_text()
    ensures { EscapedMatchesText }
{}

pub fn escaped_texts_find_their_text()
    ensures { EscapedFindsText }
{}

pub fn numbers_are_of_the_first_name()
    ensures { NumbersAreFirst }
{}

pub fn finds_are_successive()
    ensures { FindsAreSuccessive }
{}

pub fn groups_are_successive()
    ensures { GroupsAreSuccessive }
{}

pub fn captures_are_matches()
    ensures { CapturesAreMatches }
{}

pub fn none_is_left_out()
    ensures { NoneIsLeftOut }
{}

pub fn matches_stand_apart()
    ensures { MatchesStandApart }
{}

pub fn start_is_place()
    ensures { StartIsPlace }
{}

pub fn start_is_alone()
    ensures { StartIsAlone }
{}

pub fn searches_have_starts()
    ensures { SearchesHaveStarts }
{}

pub fn anchored_is_whole()
    ensures { AnchoredIsWhole }
{}

pub fn anchored_matches_whole()
    ensures { AnchoredMatchesWhole }
{}

pub fn anchored_is_read()
    ensures { AnchoredIsRead }
{}

pub fn anchored_is_begun()
    ensures { AnchoredIsBegun }
{}

pub fn literal_is_read()
    ensures { LiteralIsRead }
{}

pub fn unions_are_listed()
    ensures { UnionsAreListed }
{}

pub fn ranges_are_listed()
    ensures { RangesAreListed }
{}

pub fn each_participates()
    ensures { EachParticipates }
{}

pub fn answers_have_group_0()
    ensures { AnswersHaveGroup0 }
{}

pub fn escaped_texts_are_texts()
    ensures { EscapedIsText }
{}

pub fn matches_have_borders()
    ensures { MatchesHaveBorders }
{}

pub fn bounds_are_reached()
    ensures { BoundsAreReached }
{}

pub fn searches_reach_bounds()
    ensures { SearchesReachBounds }
{}

pub fn bounds_refuse()
    ensures { BoundsRefuse }
{}

pub fn visits_refuse()
    ensures { VisitsRefuse }
{}

pub fn answered_refuses()
    ensures { AnsweredRefuses }
{}

pub fn found_refuses()
    ensures { FoundRefuses }
{}

pub fn preferred_refuses()
    ensures { PreferredRefuses }
{}

pub fn leftmost_refuses()
    ensures { LeftmostRefuses }
{}

pub fn spans_refuse()
    ensures { SpansRefuse }
{}

pub fn leaving_out_refuses()
    ensures { LeavingOutRefuses }
{}

pub fn borders_refuse()
    ensures { BordersRefuse }
{}

pub fn participants_refuse()
    ensures { ParticipantsRefuse }
{}

pub fn its_groups_refuse()
    ensures { ItsGroupsRefuse }
{}

pub fn appends_refuse()
    ensures { AppendsRefuse }
{}

pub fn full_run_is_found()
    ensures { FullRunIsFound }
{}

pub fn full_slots_are_groups()
    ensures { FullSlotsAreGroups }
{}

pub fn full_finds_some()
    ensures { FullFindsSome }
{}

pub fn full_is_found()
    ensures { FullIsFound }
{}

pub fn names_are_ascii()
    ensures { NamesAreAscii }
{}
