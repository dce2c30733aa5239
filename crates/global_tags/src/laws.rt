ghost use Rattle.hw_base.specs.AddressMap.{AddressMap, rounded_size};
ghost use Rattle.ir_core.specs.declared.ir_module.GlobalVar.{GlobalVar};
ghost use Rattle.ir_core.specs.declared.types.TypeLayout.{TypeLayout};
ghost use Rattle.global_tags.specs.GlobalPlaces.{
  global_size,
  constants_size,
  variables_size,
  variables_at,
  place_of_global,
  descriptor_of,
  descriptors_of,
};
ghost use Rattle.std.specs.Prelude.{◌≡◌, ℕ, ◌+◌, ◌≤◌, ◌<◌, true, false, List, Some, length, slice_get};

/// Each global has its descriptor, a constant lies within the constants, and a variable within the variables, which begin at
/// or after the constants' end.
pub fn globals_follow_each_other()
    ensures each { (places : AddressMap) (layouts : List TypeLayout) (globals : List GlobalVar) (word k : ℕ) (global : GlobalVar)
        → slice_get globals k ≡ Some global
        → slice_get (descriptors_of places layouts globals word) k ≡ Some (descriptor_of places layouts globals word k global) }
    ensures constants { (places : AddressMap) (layouts : List TypeLayout) (globals : List GlobalVar) (k : ℕ) (global : GlobalVar)
        → slice_get globals k ≡ Some global → global.constant ≡ true
        → place_of_global places layouts globals k global + rounded_size (global_size layouts global) ≤ places.globals_at + constants_size layouts globals }
    ensures variables { (places : AddressMap) (layouts : List TypeLayout) (globals : List GlobalVar) (k : ℕ) (global : GlobalVar)
        → slice_get globals k ≡ Some global → global.constant ≡ false
        → place_of_global places layouts globals k global + rounded_size (global_size layouts global) ≤ variables_at places layouts globals + variables_size layouts globals }
    ensures apart { (places : AddressMap) (layouts : List TypeLayout) (globals : List GlobalVar)
        → places.globals_at + constants_size layouts globals ≤ variables_at places layouts globals }
{}
