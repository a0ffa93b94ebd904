//! What the conclusions of the laws refuse: a record `RefusedX` has for each field of `X` something
//! that this field refuses.

ghost use Rattle.implib_link_instances.specs.Refused.Code.{RefusedAllLeadTo, RefusedBranchArrives};
ghost use Rattle.implib_link_instances.specs.Refused.Code.{RefusedBranchArrivesByThunk};
ghost use Rattle.implib_link_instances.specs.Refused.Code.{RefusedBranchStays};
ghost use Rattle.implib_link_instances.specs.Refused.Code.{RefusedDirectCallArrives, RefusedFields};
ghost use Rattle.implib_link_instances.specs.Refused.Code.{RefusedHoldAddress, RefusedHoldsFurther};
ghost use Rattle.implib_link_instances.specs.Refused.Code.{RefusedInstructionArrives};
ghost use Rattle.implib_link_instances.specs.Refused.Code.{RefusedOperandArrives};
ghost use Rattle.implib_link_instances.specs.Refused.Code.{RefusedPairArrives};
ghost use Rattle.implib_link_instances.specs.Refused.Code.{RefusedPointerArrives, RefusedPointsTo};
ghost use Rattle.implib_link_instances.specs.Refused.Code.{RefusedResolves, RefusedJumpArrives};
ghost use Rattle.implib_link_instances.specs.Refused.Code.{RefusedStubAt, RefusedSumArrives};
ghost use Rattle.implib_link_instances.specs.Refused.Links.{RefusedAreTables};
ghost use Rattle.implib_link_instances.specs.Refused.Links.{RefusedAreTablesLoaded, RefusedFillsBy};
ghost use Rattle.implib_link_instances.specs.Refused.Links.{RefusedFindsBy, RefusedHoldsAt};
ghost use Rattle.implib_link_instances.specs.Refused.Links.{RefusedIsInTable, RefusedLoaders};
ghost use Rattle.implib_link_instances.specs.Refused.Links.{RefusedFlavorTextLinks};
ghost use Rattle.implib_link_instances.specs.Refused.Links.{RefusedFlavorTextsLink};
ghost use Rattle.implib_link_instances.specs.Refused.Links.{RefusedInputImports};
ghost use Rattle.implib_link_instances.specs.Refused.Links.{RefusedIsImportedBy, RefusedIsImported};
ghost use Rattle.implib_link_instances.specs.Refused.Links.{RefusedIsTaken, RefusedLinksClosed};
ghost use Rattle.implib_link_instances.specs.Refused.Links.{RefusedLldLinks, RefusedProgramLinks};
ghost use Rattle.implib_link_instances.specs.Refused.Links.{RefusedIsWeakData, RefusedIsWeakShort};
ghost use Rattle.implib_link_instances.specs.Refused.Links.{RefusedPullsIntoAs, RefusedSearches};
ghost use Rattle.implib_link_instances.specs.Refused.Links.{RefusedTakesIntoAs};
ghost use Rattle.implib_link_instances.specs.Refused.Links.{RefusedTakesOfLibraries};
ghost use Rattle.implib_link_instances.specs.Refused.Archives.{RefusedAreMembersAt};
ghost use Rattle.implib_link_instances.specs.Refused.Archives.{RefusedCallsArrive};
ghost use Rattle.implib_link_instances.specs.Refused.Archives.{RefusedHasMembersAs, RefusedInBytes};
ghost use Rattle.implib_link_instances.specs.Refused.Archives.{RefusedIsHeaderOf};
ghost use Rattle.implib_link_instances.specs.Refused.Archives.{RefusedIsInDirectory};
ghost use Rattle.implib_link_instances.specs.Refused.Archives.{RefusedIsSearchOf};
ghost use Rattle.implib_link_instances.specs.Refused.Archives.{RefusedIsWantedBy};
ghost use Rattle.implib_link_instances.specs.Refused.Archives.{RefusedLeadsToFirst};
ghost use Rattle.implib_link_instances.specs.Refused.Archives.{RefusedLldArrives};

/// Code of `nop`s and no memory are no calls, loads, stubs or held addresses.
pub fn refused_code()
    ensures refused_jump_arrives { RefusedJumpArrives }
    ensures refused_direct_call_arrives { RefusedDirectCallArrives }
    ensures refused_pair_arrives { RefusedPairArrives }
    ensures refused_sum_arrives { RefusedSumArrives }
    ensures refused_operand_arrives { RefusedOperandArrives }
    ensures refused_instruction_arrives { RefusedInstructionArrives }
    ensures refused_pointer_arrives { RefusedPointerArrives }
    ensures refused_branch_arrives { RefusedBranchArrives }
    ensures refused_branch_arrives_by_thunk { RefusedBranchArrivesByThunk }
    ensures refused_branch_stays { RefusedBranchStays }
    ensures refused_points_to { RefusedPointsTo }
    ensures refused_all_lead_to { RefusedAllLeadTo }
    ensures refused_hold_address { RefusedHoldAddress }
    ensures refused_holds_further { RefusedHoldsFurther }
    ensures refused_stub_at { RefusedStubAt }
    ensures refused_resolves { RefusedResolves }
    ensures refused_fields { RefusedFields }
{}

/// No objects and no memory have no import tables, and no loader finds or writes them.
pub fn refused_tables()
    ensures refused_finds_by { RefusedFindsBy }
    ensures refused_fills_by { RefusedFillsBy }
    ensures refused_holds_at { RefusedHoldsAt }
    ensures refused_is_in_table { RefusedIsInTable }
    ensures refused_are_tables { RefusedAreTables }
    ensures refused_are_tables_loaded { RefusedAreTablesLoaded }
    ensures refused_loaders { RefusedLoaders }
{}

/// No objects are no link of what is imported.
pub fn refused_links()
    ensures refused_input_imports { RefusedInputImports }
    ensures refused_is_imported_by { RefusedIsImportedBy }
    ensures refused_lld_links { RefusedLldLinks }
    ensures refused_is_taken { RefusedIsTaken }
    ensures refused_program_links { RefusedProgramLinks }
    ensures refused_links_closed { RefusedLinksClosed }
    ensures refused_is_imported { RefusedIsImported }
    ensures refused_flavor_text_links { RefusedFlavorTextLinks }
    ensures refused_flavor_texts_link { RefusedFlavorTextsLink }
{}

/// No members are what a search finds.
pub fn refused_searches()
    ensures refused_pulls_into { RefusedPullsIntoAs }
    ensures refused_takes_into { RefusedTakesIntoAs }
    ensures refused_takes_of_libraries { RefusedTakesOfLibraries }
    ensures refused_is_weak_data { RefusedIsWeakData }
    ensures refused_is_weak_short { RefusedIsWeakShort }
    ensures refused_searches { RefusedSearches }
{}

/// No bytes have what a search in an archive takes, and nothing of it arrives.
pub fn refused_archives()
    ensures refused_is_header_of { RefusedIsHeaderOf }
    ensures refused_are_members_at { RefusedAreMembersAt }
    ensures refused_is_search_of { RefusedIsSearchOf }
    ensures refused_leads_to_first { RefusedLeadsToFirst }
    ensures refused_calls_arrive { RefusedCallsArrive }
    ensures refused_is_wanted_by { RefusedIsWantedBy }
    ensures refused_lld_arrives { RefusedLldArrives }
    ensures refused_is_in_directory { RefusedIsInDirectory }
    ensures refused_has_members_as { RefusedHasMembersAs }
    ensures refused_in_bytes { RefusedInBytes }
{}
