use crate::fixed::Fixed;
use crate::moving::Moving;
use crate::saved::SavedModule;
use applications::Advert;
use control_sets::ControlSet;
use datapath_states::PathState;
use module_states::ModuleState;
use paged_memory::LargeImage;
use std::marker::Model;

/// A simulated CMIS module.
#[derive(Debug, Drop)]
pub struct SimModule {
    pub(crate) fixed: Fixed,
    pub(crate) moving: Moving,
    /// A note that nothing moves: a tick made it, and nothing has happened since.
    pub(crate) rests: bool,
}

impl Model for SimModule {
    ghost use Rattle.sim_module.specs.Record.{Simulated, coded_module, module_of};

    ghost Value = { Simulated };

    ghost coded = { coded_module };

    ghost use Rattle.sim_module.specs.Resting.{RestsIf};

    ghost view = { λ sim. module_of sim.fixed sim.moving };

    ghost invariant = { λ sim. RestsIf sim.rests (module_of sim.fixed sim.moving) };
}

impl SimModule {
    ghost use Rattle.std.specs.Prelude.{◌≡◌, Some, option_map};
    ghost use Rattle.sim_module.specs.Lanes as lanes;
    ghost use Rattle.sim_module.specs.Record.{module_of, moving_of};
    ghost use Rattle.sim_module.specs.SavedModules.{restored, saved};

    /// The control bytes of the Active Control Set, lane 1 first.
    pub fn active(&self) -> ControlSet
        ensures { result ≡ lanes.active_bytes self.now }
    {
        self.moving.active()
    }

    /// The states of the lanes' data paths, lane 1 first.
    pub fn path_states(&self) -> [PathState; 8]
        ensures { result ≡ lanes.path_states self.now }
    {
        self.moving.path_states()
    }

    /// The state of the module.
    pub fn state(&self) -> ModuleState
        ensures { result ≡ self.now.state }
    {
        self.moving.state
    }

    /// The numbers of what changes of it.
    pub fn save(&self) -> SavedModule
        ensures numbers { result ≡ saved (moving_of self.now) }
        ensures back { restored result ≡ Some (moving_of self.now) }
    {
        self.moving.save()
    }

    /// The module of an image, with what that advertises, if one has these numbers for what changes of it.
    pub fn restore(image: LargeImage, advert: Advert, saved: &SavedModule) -> Option<SimModule>
        ensures { result ≡ option_map (module_of (record { image = image; advert = advert })) (restored saved.now) }
    {
        Some(SimModule {
            fixed: Fixed { image, advert },
            moving: Moving::restore(saved)?,
            rests: false,
        })
    }
}
