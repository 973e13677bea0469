// The terms of a segment in a plan.
ghost use Rattle.std.specs.Prelude.{◌≡◌, ◌≤◌, IfOk};
ghost use Rattle.calendar.specs.OfPeriod.{is_whole};
ghost use Rattle.tariff.specs.Faults.{told};
ghost use Rattle.tariff.specs.Limits.{greatest_tariff, greatest_factor};
ghost use Rattle.tariff.specs.Services.{service_number, terms_refusal};

use crate::fault::TariffFault;
use crate::service::Service;
use calendar::Period;

const GREATEST_TARIFF: u32 = 9_999;

pub(crate) const GREATEST_FACTOR: u32 = 2_000;

#[derive(Clone, Copy, PartialEq, Eq, Debug)]
pub struct Terms {
    service: Service,
    // Thousandths of € per kWh/h per year.
    tariff: u32,
    // Thousandths.
    factor: u32,
    ghost priced: { tariff ≤ greatest_tariff },
    ghost scaled: { factor ≤ greatest_factor },
}

impl Terms {
    // The terms, if the period allows the service and both numbers are within their limits. The numbers come one by one: a
    // struct of bare numbers beside this one would be no plainer.
    pub fn new(
        period: &Period,
        service: u32,
        tariff: u32,
        factor: u32,
    ) -> Result<Terms, TariffFault>
        ensures answer { told result ≡ terms_refusal (is_whole period.now) service tariff factor }
        ensures fields { IfOk result (λ t. (service_number t.service ≡ service) × (t.tariff ≡ tariff) × (t.factor ≡ factor)) }
        ensures only { IfOk result (λ t. (u : Terms) → service_number u.service ≡ service → u.tariff ≡ tariff → u.factor ≡ factor → t ≡ u) }
    {
        let service = Service::try_from(service)?;
        if !service.is_allowed(period) || tariff > GREATEST_TARIFF || factor > GREATEST_FACTOR {
            return Err(TariffFault::OutsideLimits);
        }
        Ok(Terms {
            service,
            tariff,
            factor,
        })
    }

    pub fn service(&self) -> Service
        ensures { result ≡ self.now.service }
    {
        self.service
    }

    pub fn tariff(&self) -> u32
        ensures value { result ≡ self.now.tariff }
        ensures bound { result ≤ greatest_tariff }
    {
        self.tariff
    }

    pub fn factor(&self) -> u32
        ensures value { result ≡ self.now.factor }
        ensures bound { result ≤ greatest_factor }
    {
        self.factor
    }
}
