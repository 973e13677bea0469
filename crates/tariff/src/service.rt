// The services under which a segment's capacity is booked.
ghost use Rattle.std.specs.Prelude.{◌≡◌};
ghost use Rattle.calendar.specs.OfPeriod.{is_whole};
ghost use Rattle.tariff.specs.Services.{NumbersService, allows_service, service_number};

use calendar::Period;

#[derive(Clone, Copy, PartialEq, Eq, Debug)]
pub enum Service {
    FullYear = 0,
    // Under a year.
    PartYear = 1,
    // Under a month.
    PartMonth = 2,
}

// A number that no service has.
#[derive(Clone, Copy, PartialEq, Eq, Debug)]
pub struct UnknownService(pub u32);

impl Service {
    pub(crate) fn is_allowed(self, period: &Period) -> bool
        ensures { result ≡ allows_service (is_whole period.now) (service_number self) }
    {
        match self {
            Service::FullYear => true,
            Service::PartYear => period.is_whole_month(),
            Service::PartMonth => !period.is_whole_month(),
        }
    }
}

impl From<Service> for u32 {
    ghost from_gives = { λ service number. number ≡ service_number service };

    fn from(service: Service) -> u32 {
        service as u32
    }
}

impl TryFrom<u32> for Service {
    type Error = UnknownService;

    ghost try_from_gives = { NumbersService };

    fn try_from(number: u32) -> Result<Service, UnknownService> {
        match number {
            0 => Ok(Service::FullYear),
            1 => Ok(Service::PartYear),
            2 => Ok(Service::PartMonth),
            _ => Err(UnknownService(number)),
        }
    }
}
