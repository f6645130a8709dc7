// Waking a module up and putting it to sleep, on a bus that refuses or not.
use super::modules::{image, module, pass, write};
use super::plans::bus_of;
use bus_model::{BusFault, Dev, Device};
use control_sets::{Power, ProvisionFault, change_power};
use module_states::ModuleState;
use paged_memory::{Key, Window};
use sample_modules::with;
use std::test::Fail;

// A memory in which nothing happens: byte 3 has the code of the state in its bits 3 to 1.
#[test]
fn the_state_that_is_read_ends_a_change_of_power(rt: HostRuntime) -> Result<(), Fail> {
    for (state, power, answer) in [
        (0x06, Power::Awake, Ok(3)),
        (0x02, Power::Asleep, Ok(3)),
        (0x0A, Power::Awake, Err(ProvisionFault::ModuleState(5))),
        (0x0A, Power::Asleep, Err(ProvisionFault::ModuleState(5))),
        (0x0E, Power::Awake, Err(ProvisionFault::Reserved(7))),
        (0x02, Power::Awake, Err(ProvisionFault::GaveUp)),
        (0x06, Power::Asleep, Err(ProvisionFault::GaveUp)),
    ] {
        let image = with(image()?, Key::lower(Dev::A0), &[(3, state)])?;
        let mut bus = bus_of(rt.alloc(), Window::<16>::of(&image.view())?, b"", 5000)?;
        assert_eq!(rt; change_power(&mut bus, power), answer, "{state}");
    }
    let mut bus = bus_of(
        rt.alloc(),
        Window::<16>::of(&image()?.view())?,
        b"nack 3\n",
        5,
    )?;
    assert_eq!(rt;
        change_power(&mut bus, Power::Awake),
        Err(ProvisionFault::Bus(BusFault::TraceFull))
    );
    Ok(())
}

// The pin and software ask for low power; the bus refuses, and cuts a store short.
#[test]
fn a_simulated_module_wakes_up_and_goes_to_sleep(rt: HostRuntime) -> Result<(), Fail> {
    for script in [
        b"".as_slice(),
        b"nack 3\nok 1\nnack 2\ncut 0\nnack 1\nok 1\nnack 7\n",
    ] {
        let mut asleep = module()?;
        asleep.low_power_pin(true);
        assert!(rt; write(&mut asleep, 26, &[0xF0]));
        pass(&mut asleep, 100);
        assert_eq!(rt; asleep.state(), ModuleState::LowPwr);
        let mut bus = bus_of(rt.alloc(), asleep, script, 5000)?;
        for (power, state) in [
            (Power::Awake, ModuleState::Ready),
            (Power::Asleep, ModuleState::LowPwr),
            (Power::Awake, ModuleState::Ready),
        ] {
            assert!(rt; change_power(&mut bus, power).is_ok());
            assert_eq!(rt; bus.device().state(), state);
        }
    }
    Ok(())
}
